//! The jobs that began while a dispatch was on the stack.

ghost use Rattle.std.specs.Prelude.{◌≡◌, ℕ, [], ◌++◌, List, IsSome, OnOk, nat_eq};
ghost use Rattle.indexmap.specs.IndexMap.{get};
ghost use Rattle.er_trace.specs.declared.record.Record.{Record};
ghost use Rattle.er_latest.specs.Tables.{HasRoom, HasRoomFor};
ghost use Rattle.er_page.specs.Stack.{StackIs};
ghost use Rattle.er_page.specs.Within as says;
ghost use Rattle.er_page.specs.Within.{WithinIs, job_under, jobs_at};

use crate::stack::Stack;
use er_io::NoMemory;
use er_trace::record::Record;
use indexmap::IndexMap;
use std::alloc::Global;

/// The events of jobs, by the dispatch that was on the stack when they began.
pub(crate) struct Within {
    pub(crate) lists: IndexMap<u32, Vec<u32>>,
    pub(crate) alloc: Global,
}

impl Drop for Within {
    fn drop(self) {
        let Within { lists: _, alloc: _ } = self;
    }
}

/// The dispatch on the stack, where the record begins a job. There is no second one: none is
/// inline, and no other is put on another.
pub(crate) fn job_dispatch(stack: &Stack, rec: &Record) -> Option<u32>
    ensures { (h : List Record) → StackIs stack.now h → result ≡ says.job_dispatch h rec.now }
{
    match rec {
        Record::Job { .. } => stack.top(),
        _ => None,
    }
}

impl Within {
    /// None yet. It takes no memory.
    pub(crate) fn new(alloc: Global) -> Self
        ensures { WithinIs result [] }
    {
        Within {
            lists: IndexMap::new(alloc),
            alloc,
        }
    }

    /// The events of the jobs that began while the dispatch was on the stack, in order.
    pub(crate) fn jobs(&self, dispatch: u32) -> &[u32]
        ensures { result.now ≡ jobs_at self.now dispatch }
    {
        match self.lists.get(&dispatch) {
            Some(jobs) => jobs.as_slice(),
            None => &[],
        }
    }

    /// Makes room for a job under this dispatch, if there is one.
    pub(crate) fn make_room(&mut self, dispatch: Option<u32>) -> Result<(), NoMemory>
        ensures kept { (p : ℕ) → jobs_at self.new p ≡ jobs_at self.old p }
        ensures room { OnOk result (HasRoomFor nat_eq self.new.lists dispatch) }
    {
        let Some(dispatch) = dispatch else {
            return Ok(());
        };
        self.make_list(dispatch)?;
        self.make_place(dispatch)
    }

    /// Takes a job that begins as this event under the dispatch, if there is one.
    pub(crate) fn take(&mut self, dispatch: Option<u32>, event: u32)
        requires room { HasRoomFor nat_eq self.old.lists dispatch }
        ensures { (p : ℕ) → jobs_at self.new p ≡ jobs_at self.old p ++ job_under p dispatch event }
    {
        let Some(dispatch) = dispatch else {
            return;
        };
        let Some(jobs) = self.lists.get_mut(&dispatch) else {
            unreachable!()
        };
        let Ok(()) = jobs.push(event) else {
            unreachable!()
        };
    }

    /// Gives the dispatch a list, if it has none.
    fn make_list(&mut self, dispatch: u32) -> Result<(), NoMemory>
        ensures kept { (p : ℕ) → jobs_at self.new p ≡ jobs_at self.old p }
        ensures there { OnOk result (IsSome (get nat_eq self.new.lists dispatch)) }
    {
        if self.lists.contains_key(&dispatch) {
            return Ok(());
        }
        self.lists.insert(dispatch, Vec::new(self.alloc))?;
        Ok(())
    }

    /// Makes room in the list of the dispatch.
    fn make_place(&mut self, dispatch: u32) -> Result<(), NoMemory>
        requires there { IsSome (get nat_eq self.old.lists dispatch) }
        ensures kept { (p : ℕ) → jobs_at self.new p ≡ jobs_at self.old p }
        ensures room { OnOk result (HasRoom (get nat_eq self.new.lists dispatch)) }
    {
        let Some(jobs) = self.lists.get_mut(&dispatch) else {
            unreachable!()
        };
        jobs.reserve(1)?;
        Ok(())
    }
}
