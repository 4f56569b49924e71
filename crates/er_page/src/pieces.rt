//! All pieces, how one is put to them, and the latest of each event.

ghost use Rattle.std.specs.Prelude.{◌≡◌, ℕ, ◌+◌, ◌<◌, ◌^◌, ◌==◌, if◌then◌else◌, List, [], ◌∷◌, ◌++◌, Some, None, reverse, length, slice_get, option_map, nat_eq, OnOk, vec_len, vec_capacity};
ghost use Rattle.er_numbers.specs.Numbers.{found, HasRoomUnder};
ghost use Rattle.er_history.specs.History.{told, running};
ghost use Rattle.er_history.specs.Naming.{may_call};
ghost use Rattle.er_trace.specs.declared.record.Record.{Record};
ghost use Rattle.er_page.specs.Roles.{begin_in, read};
ghost use Rattle.er_page.specs.Pieces.{PiecesAre, newest_of, now_of, start_in, calls, begun_by};

use crate::piece::{Begun, Piece, Pieces, Start};
use er_history::firsts::Now;
use er_io::NoMemory;
use er_numbers::Numbers;
use er_trace::record::Record;
use std::alloc::Global;

impl Pieces {
    /// No piece yet. It takes no memory.
    pub(crate) fn new(alloc: Global) -> Self
        ensures { PiecesAre result [] }
    {
        Pieces {
            list: Vec::new(alloc),
            latest: Numbers::new(alloc),
        }
    }

    /// Makes room for one piece more, which is of this event.
    pub(crate) fn make_room(&mut self, event: u32) -> Result<(), NoMemory>
        ensures list { self.new.list.items ≡ self.old.list.items }
        ensures latest { (u : ℕ) → found self.new.latest u ≡ found self.old.latest u }
        ensures room { OnOk result (vec_len self.new.list < vec_capacity self.new.list) }
        ensures place { OnOk result (HasRoomUnder self.new.latest event) }
    {
        let Ok(()) = self.list.reserve(1) else {
            return Err(NoMemory);
        };
        self.latest.make_room(event)
    }

    /// Takes the piece that a record begins.
    pub(crate) fn take(&mut self, begin: Record, start: Start)
        requires few { length self.old.list.items + 1 < 2 ^ 32 }
        requires room { vec_len self.old.list < vec_capacity self.old.list }
        requires place { HasRoomUnder self.old.latest start.event }
        ensures list { self.new.list.items
            ≡ self.old.list.items ++ record { begin = begin; start = start } ∷ [] }
        ensures latest { (u : ℕ) → found self.new.latest u
            ≡ (if start.event == u
            then Some (length self.old.list.items)
            else found self.old.latest u) }
    {
        let action = self.list.len() as u32;
        self.latest.put(start.event, action);
        self.list.push_reserved(Piece { begin, start });
    }

    /// The piece that is this action.
    pub(crate) fn piece(&self, action: u32) -> &Piece
        requires begun { action < length self.now.list.items }
        ensures { slice_get self.now.list.items action ≡ Some result.now }
    {
        &self.list[action as usize]
    }

    /// The record that began this action.
    pub(crate) fn begin(&self, action: u32) -> Option<&Record>
        ensures { read result ≡ begin_in self.now.list.items (Some action) }
    {
        let piece = self.list.get(action as usize)?;
        Some(&piece.begin)
    }

    /// The event of the piece just before this action.
    pub(crate) fn before(&self, action: u32) -> Option<Start>
        ensures { (n : ℕ) → action ≡ n + 1
            → result ≡ option_map start_in (slice_get self.now.list.items n) }
    {
        let last = action.checked_sub(1)?;
        let piece = self.list.get(last as usize)?;
        Some(piece.start)
    }

    /// How many actions have begun.
    pub(crate) fn count(&self) -> u32
        ensures { result ≡ length self.now.list.items }
    {
        self.list.len() as u32
    }

    /// The event of the running action.
    pub(crate) fn newest(&self) -> Option<Start>
        ensures { result ≡ newest_of (reverse self.now.list.items) }
    {
        let piece = self.list.last()?;
        Some(piece.start)
    }

    /// The running action and its event.
    pub(crate) fn now(&self) -> Option<Now>
        ensures { result ≡ now_of (reverse self.now.list.items) }
    {
        let piece = self.list.last()?;
        Some(Now {
            action: (self.list.len() - 1) as u32,
            event: piece.start.event,
        })
    }

    /// Whether the running action can call an inline dispatch: its event is a script run, a
    /// timeout, a tick, a handler, a close, a message, an animation callback or a job.
    pub(crate) fn may_call(&self) -> bool
        ensures { (h : List Record) → PiecesAre self.now h
            → result ≡ may_call (running (told h).actions) }
    {
        match self.newest() {
            Some(start) => calls(start.begun),
            None => false,
        }
    }
}

/// Whether such an event can.
fn calls(begun: Begun) -> bool
    ensures { result ≡ calls begun }
{
    match begun {
        Begun::Parse => false,
        Begun::Begin => false,
        Begun::Exec => true,
        Begun::Timer => true,
        Begun::Tick => true,
        Begun::Handler => true,
        Begun::Close => true,
        Begun::Message => true,
        Begun::Anim => true,
        Begun::Job => true,
    }
}

/// What the event is that a record begins. None is begun by a note, nor by `back`.
pub(crate) fn begun_by(rec: &Record) -> Option<Begun>
    ensures { result ≡ begun_by rec.now }
{
    match rec {
        Record::Parse { .. } => Some(Begun::Parse),
        Record::ParseFrame { .. } => Some(Begun::Parse),
        Record::Exec { .. } => Some(Begun::Exec),
        Record::Timer { .. } => Some(Begun::Timer),
        Record::Tick { .. } => Some(Begun::Tick),
        Record::Dcl { .. } => Some(Begun::Begin),
        Record::Load { .. } => Some(Begun::Begin),
        Record::Eload { .. } => Some(Begun::Begin),
        Record::Fire { .. } => Some(Begun::Begin),
        Record::Wfire { .. } => Some(Begun::Begin),
        Record::Reply { .. } => Some(Begun::Begin),
        Record::Inline { .. } => Some(Begun::Begin),
        Record::Run { .. } => Some(Begun::Handler),
        Record::Close { .. } => Some(Begun::Close),
        Record::Message { .. } => Some(Begun::Message),
        Record::Anim { .. } => Some(Begun::Anim),
        Record::Job { .. } => Some(Begun::Job),
        Record::Back { .. } => None,
        Record::New { .. } => None,
        Record::NewFrame { .. } => None,
        Record::On { .. } => None,
        Record::Set { .. } => None,
        Record::Every { .. } => None,
        Record::Send { .. } => None,
        Record::Post { .. } => None,
        Record::Ask { .. } => None,
        Record::Queue { .. } => None,
        Record::Access { .. } => None,
    }
}
