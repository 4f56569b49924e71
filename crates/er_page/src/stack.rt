//! The dispatches that are not finished.

ghost use Rattle.std.specs.Prelude.{◌≡◌, ℕ, ◌+◌, ◌<◌, ◌^◌, Bool, true, false, not, List, [], ◌∷◌, drop, reverse, OnOk, option_copied, vec_len, vec_capacity};
ghost use Rattle.er_trace.specs.declared.record.Record.{Record};
ghost use Rattle.std.specs.List.{list_any};
ghost use Rattle.er_history.specs.History.{told, is_inline, Open};
ghost use Rattle.er_history.specs.Naming as naming;
ghost use Rattle.er_history.specs.LookUps as says;
ghost use Rattle.er_page.specs.Stack.{StackIs, HasDepth, put, closed, levels_after, top_of, depth_on};

use er_io::NoMemory;
use er_trace::record::Record;
use std::alloc::Global;

/// A dispatch that is not finished: its number, the action that is its begin, whether it is inline,
/// whether its close has begun, and how many inline ones there are from it down.
#[derive(Clone, Copy)]
pub(crate) struct Level {
    pub(crate) number: u32,
    pub(crate) begin: u32,
    pub(crate) is_inline: bool,
    pub(crate) closing: bool,
    pub(crate) depth: u32,
}

/// The dispatches that are not finished, the top one last.
pub(crate) struct Stack {
    pub(crate) levels: Vec<Level>,
}

impl Drop for Stack {
    fn drop(self) {
        let Stack { levels: _ } = self;
    }
}

impl Stack {
    /// No dispatch yet. It takes no memory.
    pub(crate) fn new(alloc: Global) -> Self
        ensures { StackIs result [] }
    {
        Stack {
            levels: Vec::new(alloc),
        }
    }

    /// What is kept of the dispatch on top.
    pub(crate) fn top_level(&self) -> Option<Level>
        ensures { result ≡ top_of (reverse self.now.levels.items) }
    {
        self.levels.last().copied()
    }

    /// The dispatch on top.
    pub(crate) fn top(&self) -> Option<u32>
        ensures { (h : List Record) → StackIs self.now h → result ≡ says.open_dispatch h }
    {
        let level = self.top_level()?;
        Some(level.number)
    }

    /// How many inline dispatches there are.
    pub(crate) fn depth(&self) -> u32
        ensures kept { result ≡ depth_on (reverse self.now.levels.items) }
        ensures says { (h : List Record) → StackIs self.now h → result ≡ says.inline_depth h }
    {
        match self.top_level() {
            Some(level) => level.depth,
            None => 0,
        }
    }

    /// Whether one of them is inline.
    pub(crate) fn has_inline(&self) -> bool
        ensures { (h : List Record) → StackIs self.now h
            → result ≡ list_any (λ (o : Open). is_inline o.dispatch) (told h).stack }
    {
        self.depth() > 0
    }

    /// Whether this dispatch is on top, and its close has or has not begun.
    pub(crate) fn is_top(&self, closing: bool, dispatch: u32) -> bool
        ensures { (h : List Record) → StackIs self.now h
            → result ≡ naming.is_top closing dispatch (told h).stack }
    {
        match self.top_level() {
            Some(level) => level.number == dispatch && level.closing == closing,
            None => false,
        }
    }

    /// Whether there is none.
    pub(crate) fn is_empty(&self) -> bool
        ensures { (h : List Record) → StackIs self.now h
            → not result ≡ naming.has_open (told h).stack }
    {
        self.levels.is_empty()
    }

    /// Makes room for one dispatch more.
    pub(crate) fn make_room(&mut self) -> Result<(), NoMemory>
        ensures kept { self.new.levels.items ≡ self.old.levels.items }
        ensures room { OnOk result (vec_len self.new.levels < vec_capacity self.new.levels) }
    {
        match self.levels.reserve(1) {
            Ok(()) => Ok(()),
            Err(_) => Err(NoMemory),
        }
    }

    /// Takes a record, which begins this action, if one: a dispatch that begins is put on top. At a
    /// close the top leaves, where it is not inline; an inline one is marked, and leaves at `back`.
    pub(crate) fn take(&mut self, rec: &Record, action: u32)
        requires room { vec_len self.old.levels < vec_capacity self.old.levels }
        requires depth { HasDepth (reverse self.old.levels.items) rec.now }
        ensures { reverse self.new.levels.items
            ≡ levels_after (reverse self.old.levels.items) action rec.now }
    {
        match rec {
            Record::Dcl { dispatch, .. } => self.put(*dispatch, action),
            Record::Load { dispatch, .. } => self.put(*dispatch, action),
            Record::Eload { dispatch, .. } => self.put(*dispatch, action),
            Record::Fire { dispatch, .. } => self.put(*dispatch, action),
            Record::Wfire { dispatch, .. } => self.put(*dispatch, action),
            Record::Reply { dispatch, .. } => self.put(*dispatch, action),
            Record::Inline { dispatch, .. } => self.put_inline(*dispatch, action),
            Record::Close { .. } => self.close(),
            Record::Back { .. } => self.leave(),
            _ => (),
        }
    }

    fn put(&mut self, number: u32, begin: u32)
        requires room { vec_len self.old.levels < vec_capacity self.old.levels }
        ensures { reverse self.new.levels.items
            ≡ put false (reverse self.old.levels.items) number begin }
    {
        let level = Level {
            number,
            begin,
            is_inline: false,
            closing: false,
            depth: self.depth(),
        };
        self.levels.push_reserved(level);
    }

    fn put_inline(&mut self, number: u32, begin: u32)
        requires room { vec_len self.old.levels < vec_capacity self.old.levels }
        requires depth { depth_on (reverse self.old.levels.items) + 1 < 2 ^ 32 }
        ensures { reverse self.new.levels.items
            ≡ put true (reverse self.old.levels.items) number begin }
    {
        let level = Level {
            number,
            begin,
            is_inline: true,
            closing: false,
            depth: self.depth() + 1,
        };
        self.levels.push_reserved(level);
    }

    fn close(&mut self)
        requires room { vec_len self.old.levels < vec_capacity self.old.levels }
        ensures { reverse self.new.levels.items ≡ closed (reverse self.old.levels.items) }
    {
        let Some(top) = self.levels.pop() else {
            return;
        };
        if top.is_inline {
            self.levels.push_reserved(Level {
                closing: true,
                ..top
            });
        }
    }

    fn leave(&mut self)
        ensures { reverse self.new.levels.items ≡ drop 1 (reverse self.old.levels.items) }
    {
        let _top = self.levels.pop();
    }
}
