//! What the records have declared, started and finished, and how one record more is taken.

ghost use Rattle.std.specs.Prelude.{[], OnOk};
ghost use Rattle.er_history.specs.Taken.{StillStands, Takes};
ghost use Rattle.er_claims.specs.Claimed.{ClaimedAre, HasRoomFor};

use crate::fired::Fired;
use crate::tables::Tables;
use er_history::firsts::Now;
use er_io::NoMemory;
use er_trace::record::{Kind, Record};
use std::alloc::Global;

/// A kind, or the document in a frame element.
#[derive(Clone, Copy)]
pub enum Form {
    Kinded(Kind),
    Framing(u32),
}

/// An element: its document, its form, whether a parse step made it,
/// and the event and the piece that made it.
#[derive(Clone, Copy)]
pub struct Element {
    pub doc: u32,
    pub form: Form,
    pub is_static: bool,
    pub maker: u32,
    pub piece: u32,
}

/// A timeout: its delay, the event and the piece that set it, and how many were set before.
#[derive(Clone, Copy)]
pub(crate) struct Timeout {
    pub(crate) delay: u32,
    pub(crate) maker: u32,
    pub(crate) piece: u32,
    pub(crate) rank: usize,
}

/// A timeout that was set: its number, its delay, the event and the piece that set it, and how many
/// were set before.
#[derive(Clone, Copy)]
pub struct SetTimeout {
    pub timeout: u32,
    pub delay: u32,
    pub maker: u32,
    pub piece: u32,
    pub rank: usize,
}

/// A timeout that has fired, and of those that fired right before it how many were set in its piece
/// before it with no greater delay (`run`), how many have no lesser delay (`longer`), and how many
/// were set no earlier (`later`).
/// Where there are more, as many as a number of two bytes can tell.
#[derive(Clone, Copy)]
pub struct FiredTimeout {
    pub set: SetTimeout,
    pub run: u16,
    pub longer: u16,
    pub later: u16,
}

/// What the records have declared, started and finished, by number.
pub struct Claimed {
    pub(crate) tables: Tables,
    pub(crate) fired: Fired,
}

impl Drop for Claimed {
    fn drop(self) {
        let Claimed {
            tables: _,
            fired: _,
        } = self;
    }
}

impl Claimed {
    /// Nothing is claimed yet. It takes no memory.
    pub fn new(alloc: Global) -> Self
        ensures { ClaimedAre result [] }
    {
        Claimed {
            tables: Tables::new(alloc),
            fired: Fired::new(alloc),
        }
    }

    /// Makes room for what the record declares, starts or finishes.
    pub fn make_room(&mut self, rec: &Record) -> Result<(), NoMemory>
        ensures kept { StillStands ClaimedAre self.old self.new }
        ensures room { OnOk result (HasRoomFor self.new rec.now) }
    {
        self.tables.make_room(rec)?;
        let timer = self.tables.timer_in(rec);
        self.fired.make_room(timer)
    }

    /// Takes the record, after which this action runs.
    pub fn take(&mut self, rec: &Record, now: Now)
        requires room { HasRoomFor self.old rec.now }
        ensures { Takes ClaimedAre self.old self.new rec.now now }
    {
        let timer = self.tables.timer_in(rec);
        self.tables.take(rec, now);
        self.fired.take(timer);
    }
}
