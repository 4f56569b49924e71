//! The jobs whose events have begun, by the events that queued them.

ghost use Rattle.std.specs.Prelude.{◌≡◌, ℕ, [], ◌++◌, Option, Some, IsSome, IfSome, OnOk, map, nat_eq, option_map};
ghost use Rattle.indexmap.specs.IndexMap.{get};
ghost use Rattle.er_tasks.specs.declared.begun.Started.{Started};
ghost use Rattle.er_tasks.specs.declared.tasks.Task.{Task};
ghost use Rattle.er_tasks.specs.Begun.{AreBegun, HasPlaceFor, ListHasPlace, listed_at, task_number, tasks_at};
ghost use Rattle.er_tasks.specs.Tasks.{IsStarted, QueuedAre, event_under, number_under, under};

use crate::begun::{Begun, Started, run_to};
use crate::tasks::BegunTask;
use er_io::NoMemory;
use indexmap::IndexMap;
use std::alloc::Global;

/// The jobs whose events have begun, by the events that queued them: their events, and beside each
/// what is known of the job.
pub(crate) struct Queued {
    pub(crate) lists: IndexMap<u32, Begun>,
    pub(crate) alloc: Global,
}

impl Drop for Queued {
    fn drop(self) {
        let Queued { lists: _, alloc: _ } = self;
    }
}

impl Queued {
    /// None has begun. It takes no memory.
    pub(crate) fn new(alloc: Global) -> Self
        ensures queued { QueuedAre result [] }
        ensures none { (u : ℕ) → tasks_at result u ≡ [] }
    {
        Queued {
            lists: IndexMap::new(alloc),
            alloc,
        }
    }

    /// The events of the jobs queued in this event, in order.
    pub(crate) fn events(&self, event: u32) -> &[u32]
        ensures { result.now ≡ listed_at self.now event }
    {
        match self.lists.get(&event) {
            Some(begun) => begun.listed.as_slice(),
            None => &[],
        }
    }

    /// What is known of them.
    pub(crate) fn tasks(&self, event: u32) -> &[BegunTask]
        ensures { result.now ≡ tasks_at self.now event }
    {
        match self.lists.get(&event) {
            Some(begun) => begun.tasks.as_slice(),
            None => &[],
        }
    }

    /// Makes room for a job that this event queued, if there is one.
    pub(crate) fn make_room(&mut self, queuer: Option<u32>) -> Result<(), NoMemory>
        ensures listed { (u : ℕ) → listed_at self.new u ≡ listed_at self.old u }
        ensures tasks { (u : ℕ) → tasks_at self.new u ≡ tasks_at self.old u }
        ensures room { OnOk result (HasPlaceFor self.new queuer) }
    {
        let Some(event) = queuer else {
            return Ok(());
        };
        self.make_list(event)?;
        self.make_place(event)
    }

    /// Takes a job that begins as this event, if there is one.
    pub(crate) fn take(&mut self, job: Option<Started>, event: u32)
        requires room { HasPlaceFor self.old (option_map (λ (x : Started). x.task.maker) job) }
        ensures listed { (u : ℕ) → listed_at self.new u
            ≡ listed_at self.old u ++ event_under u job event }
        ensures numbers { (u : ℕ) → map task_number (tasks_at self.new u)
            ≡ map task_number (tasks_at self.old u) ++ number_under u job }
        ensures begun { (found : ℕ → Option Task) (started : ℕ → Option ℕ)
            → ((u : ℕ) → AreBegun found started (tasks_at self.old u))
            → IfSome job (IsStarted found started)
            → (u : ℕ) → AreBegun found started (tasks_at self.new u) }
    {
        if let Some(started) = job {
            let run = run_to(self.tasks(started.task.maker), started.task);
            self.put(
                BegunTask {
                    number: started.number,
                    event: started.event,
                    task: started.task,
                    run,
                },
                event,
            );
        }
    }

    /// Gives the event a list, if it has none.
    fn make_list(&mut self, event: u32) -> Result<(), NoMemory>
        ensures listed { (u : ℕ) → listed_at self.new u ≡ listed_at self.old u }
        ensures tasks { (u : ℕ) → tasks_at self.new u ≡ tasks_at self.old u }
        ensures there { OnOk result (IsSome (get nat_eq self.new.lists event)) }
    {
        if self.lists.contains_key(&event) {
            return Ok(());
        }
        self.lists.insert(event, Begun::new(self.alloc))?;
        Ok(())
    }

    /// Makes room in the event's list.
    fn make_place(&mut self, event: u32) -> Result<(), NoMemory>
        requires there { IsSome (get nat_eq self.old.lists event) }
        ensures listed { (u : ℕ) → listed_at self.new u ≡ listed_at self.old u }
        ensures tasks { (u : ℕ) → tasks_at self.new u ≡ tasks_at self.old u }
        ensures room { OnOk result (ListHasPlace self.new event) }
    {
        let Some(begun) = self.lists.get_mut(&event) else {
            unreachable!()
        };
        begun.make_room()
    }

    /// Puts it into the list of the event that queued it.
    fn put(&mut self, job: BegunTask, event: u32)
        requires room { ListHasPlace self.old job.task.maker }
        ensures listed { (u : ℕ) → listed_at self.new u
            ≡ listed_at self.old u ++ under u job.task event }
        ensures tasks { (u : ℕ) → tasks_at self.new u
            ≡ tasks_at self.old u ++ under u job.task job }
        ensures numbers { (u : ℕ) → map task_number (tasks_at self.new u)
            ≡ map task_number (tasks_at self.old u) ++ under u job.task job.number }
    {
        let Some(begun) = self.lists.get_mut(&job.task.maker) else {
            unreachable!()
        };
        begun.push(event, job);
    }
}
