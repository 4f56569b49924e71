//! What is kept of a location.

ghost use Rattle.std.specs.Prelude.{◌≡◌, ◌+◌, ◌<◌, ◌≤◌, ◌^◌, OnOk, OnErr, IfOk};
ghost use Rattle.er_access.specs.Place as spec;

use crate::access::is_write;
use crate::row_list::RowList;
use er_io::NoMemory;
use er_trace::record::Mode;
use std::alloc::Global;
use std::marker::Model;

/// How many accesses of one mode a location has, and the action of the last.
#[derive(Clone, Copy)]
pub(crate) struct Tally {
    pub(crate) count: u32,
    pub(crate) last: Option<u32>,
}

impl Tally {
    /// Whether the last access was of this action.
    fn is_last(self, action: u32) -> bool
        ensures { result ≡ spec.is_last self action }
    {
        self.last == Some(action)
    }

    /// How many accesses were of other actions than this, which is not less than any of them.
    fn others(self, action: u32) -> u64
        ensures { result ≡ spec.others self action }
    {
        if self.is_last(action) {
            (self.count as u64).saturating_sub(1)
        } else {
            self.count as u64
        }
    }

    /// Counts one more.
    fn note(&mut self, action: u32)
        requires { self.old.count < 2 ^ 31 }
        ensures { self.new ≡ spec.counted self.old action }
    {
        self.count += 1;
        self.last = Some(action);
    }
}

/// The numbers of the accesses of a location, and how many read and write.
#[derive(Drop)]
pub(crate) struct Place {
    rows: RowList,
    reads: Tally,
    writes: Tally,
}

impl Model for Place {
    ghost use Rattle.er_access.specs.Place.{Seen};

    ghost Value = { Seen };

    ghost view = { λ p. record { rows = p.rows; reads = p.reads; writes = p.writes } };
}

impl Place {
    /// A place with one access.
    pub(crate) fn of(alloc: Global, n: u32, action: u32, mode: Mode) -> Result<Place, NoMemory>
        ensures { IfOk result (λ place. place ≡ spec.noted spec.nothing n action mode) }
    {
        let none = Tally {
            count: 0,
            last: None,
        };
        let mut place = Place {
            rows: RowList::new(alloc),
            reads: none,
            writes: none,
        };
        place.note(n, action, mode)?;
        Ok(place)
    }

    /// The numbers of its accesses.
    pub(crate) fn rows(&self) -> &[u32]
        ensures { result.now ≡ self.now.rows }
    {
        self.rows.as_slice()
    }

    /// Whether its last access of this mode was of this action.
    pub(crate) fn repeats(&self, action: u32, mode: Mode) -> bool
        ensures { result ≡ spec.is_last (spec.tally_of self.now mode) action }
    {
        if is_write(mode) {
            self.writes.is_last(action)
        } else {
            self.reads.is_last(action)
        }
    }

    /// How many of its accesses can race with one of this action and mode.
    pub(crate) fn partners(&self, action: u32, mode: Mode) -> u64
        requires { self.now.reads.count + self.now.writes.count < 2 ^ 31 }
        ensures { result ≡ spec.partners self.now action mode }
    {
        let writes = self.writes.others(action);
        if is_write(mode) {
            writes + self.reads.others(action)
        } else {
            writes
        }
    }

    /// Notes one access more.
    pub(crate) fn note(&mut self, n: u32, action: u32, mode: Mode) -> Result<(), NoMemory>
        requires { self.old.reads.count + self.old.writes.count < 2 ^ 31 }
        ensures noted { OnOk result (self.new ≡ spec.noted self.old n action mode) }
        ensures unchanged { OnErr result (self.new ≡ self.old) }
    {
        self.rows.push(n)?;
        if is_write(mode) {
            self.writes.note(action);
        } else {
            self.reads.note(action);
        }
        Ok(())
    }
}
