//! A table that is filled line by line, and clocks for it.

ghost use Rattle.std.specs.Prelude.{OnOk};

use er_access::{AddFault, Table};
use er_clocks::{Clocks, Meter, Paths};
use er_io::NoMemory;
use er_races::{ListFault, Race, list};
use er_trace::name::Name;
use er_trace::record::{Loc, Mode};
use std::alloc::Global;
use std::marker::Model;

/// A table, the line that comes next, and the action of the last access.
pub(crate) struct Filling {
    pub(crate) table: Table,
    line: u32,
    action: u32,
}

impl Drop for Filling {
    fn drop(self) {
        let Filling {
            table: _,
            line: _,
            action: _,
        } = self;
    }
}

impl Model for Filling {
    ghost use Rattle.std.specs.Prelude.{List, All, ◌<◌, ◌≤◌};
    ghost use Rattle.er_access.specs.Kept.{Kept};

    ghost Value = { List Kept };

    ghost view = { λ f. f.table };

    ghost invariant = { λ f.
        All (λ x. x.line < f.line) f.table × All (λ x. x.action ≤ f.action) f.table };
}

impl Filling {
    pub(crate) fn new(alloc: Global) -> Self {
        Filling {
            table: Table::new(alloc),
            line: 2,
            action: 0,
        }
    }

    /// Adds the access of the next line. Out of memory stands for an action that has gone by, too.
    pub(crate) fn add(&mut self, action: u32, mode: Mode, loc: &Loc) -> Result<bool, AddFault> {
        if action < self.action || self.line == u32::MAX {
            return Err(AddFault::NoMemory);
        }
        let answer = self.table.add(self.line, action, mode, loc);
        self.line += 1;
        self.action = action;
        answer
    }

    /// The races, and how many comparisons were made.
    pub(crate) fn races(
        &self,
        alloc: Global,
        clocks: &Clocks,
    ) -> Result<(Vec<Race>, u64), ListFault> {
        if self.table.pairs() > 16_777_216 || clocks.len() <= self.action {
            return Err(ListFault::NoMemory);
        }
        let mut meter = Meter::new();
        let races = list(alloc, &self.table, clocks, &mut meter)?;
        Ok((races, meter.made()))
    }
}

/// Clocks of so many actions, each of which has a path to the next up to the last of a first part.
pub(crate) fn clocks_of(alloc: Global, actions: u32, joined: u32) -> Result<Clocks, NoMemory> {
    let mut clocks = Clocks::new(alloc);
    for j in 0..actions {
        push(&mut clocks, j < joined)?;
    }
    Ok(clocks)
}

fn push(clocks: &mut Clocks, is_joined: bool) -> Result<(), NoMemory> {
    let count = clocks.len();
    if count >= 32_768 {
        return Err(NoMemory);
    }
    if is_joined && count > 0 {
        clocks.push(&[count - 1])?;
    } else {
        clocks.push(&[])?;
    }
    Ok(())
}

pub(crate) fn variable(alloc: Global, object: u32) -> Result<Loc, NoMemory> {
    Ok(Loc::Var(object, Name::new(alloc, &[120])?))
}
