//! Lists of tasks whose events have begun.

ghost use Rattle.std.specs.Prelude.{◌≡◌, ◌↔◌, [], ◌∷◌, ◌++◌, IsTrue, OnOk, map};
ghost use Rattle.er_tasks.specs.Begun.{AreRuns, GoesOn, HasPlace, IsRunTo, task_number};

use crate::tasks::{BegunTask, Task};
use er_io::NoMemory;
use std::alloc::Global;

/// A task whose event began: its number, the event, and what declared it.
#[derive(Clone, Copy)]
pub(crate) struct Started {
    pub(crate) number: u32,
    pub(crate) event: u32,
    pub(crate) task: Task,
}

/// Tasks in the order in which their events began: a number for each, and beside it what is known
/// of it.
pub(crate) struct Begun {
    pub(crate) listed: Vec<u32>,
    pub(crate) tasks: Vec<BegunTask>,
}

impl Drop for Begun {
    fn drop(self) {
        let Begun {
            listed: _,
            tasks: _,
        } = self;
    }
}

/// Whether the second task was declared in the piece of the first, behind it.
fn goes_on(first: Task, second: Task) -> bool
    ensures { IsTrue result ↔ GoesOn first second }
{
    first.piece == second.piece && first.rank < second.rank
}

impl Begun {
    pub(crate) fn new(alloc: Global) -> Self
        ensures listed { result.listed.items ≡ [] }
        ensures tasks { result.tasks.items ≡ [] }
    {
        Begun {
            listed: Vec::new(alloc),
            tasks: Vec::new(alloc),
        }
    }

    /// Makes room for one more.
    pub(crate) fn make_room(&mut self) -> Result<(), NoMemory>
        ensures listed { self.new.listed.items ≡ self.old.listed.items }
        ensures tasks { self.new.tasks.items ≡ self.old.tasks.items }
        ensures room { OnOk result (HasPlace self.new) }
    {
        self.listed.reserve(1)?;
        self.tasks.reserve(1)?;
        Ok(())
    }

    /// Puts a task at the end, listed by that number.
    pub(crate) fn push(&mut self, listed: u32, begun: BegunTask)
        requires room { HasPlace self.old }
        ensures listed { self.new.listed.items ≡ self.old.listed.items ++ listed ∷ [] }
        ensures tasks { self.new.tasks.items ≡ self.old.tasks.items ++ begun ∷ [] }
        ensures numbers { map task_number self.new.tasks.items
            ≡ map task_number self.old.tasks.items ++ begun.number ∷ [] }
    {
        let Ok(()) = self.listed.push(listed) else {
            unreachable!()
        };
        let Ok(()) = self.tasks.push(begun) else {
            unreachable!()
        };
    }
}

/// From where on all of these tasks were declared in the piece of this one, before it.
pub(crate) fn run_to(begun: &[BegunTask], task: Task) -> usize
    ensures { AreRuns begun.now → IsRunTo begun.now task result }
{
    let count = begun.len();
    if count == 0 {
        return 0;
    }
    let last = begun[count - 1];
    if goes_on(last.task, task) {
        return last.run;
    }
    count
}
