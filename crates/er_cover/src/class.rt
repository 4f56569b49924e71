//! The class of a race.

ghost use Rattle.std.specs.Prelude.{◌≡◌, ◌<◌, All, IfOk, length};
ghost use Rattle.er_access.specs.Numbers.{accesses_of};
ghost use Rattle.er_races.specs.Races.{IsWithin};
ghost use Rattle.er_cover.specs.Passes as spec;
ghost use Rattle.er_cover.specs.Passes.{classes_by_number};

use er_access::Table;
use er_io::NoMemory;
use er_races::Race;
use std::alloc::Global;

/// All races of one pair of actions, by these two actions.
#[derive(Clone, Copy, Debug, PartialEq, Eq, Hash, Drop)]
pub struct Class {
    pub first: u32,
    pub second: u32,
}

impl Class {
    /// Its place among all pairs of actions, where the first falls and, for one first,
    /// the second rises.
    pub(crate) fn rank(&self, actions: u32) -> u64
        ensures { result ≡ spec.rank actions self.now }
    {
        let before = u64::from(actions.saturating_sub(self.first));
        before * u64::from(actions) + u64::from(self.second)
    }
}

/// The class of each race, in the order of the races.
pub(crate) fn classes_by_race(
    alloc: Global,
    races: &[Race],
    table: &Table,
) -> Result<Vec<Class>, NoMemory>
    requires { All (IsWithin table.now) races.now }
    ensures { IfOk result (λ v. v.items ≡ classes_by_number (accesses_of table.now) races.now) }
{
    let mut classes = Vec::new(alloc);
    for race in races {
        let Ok(()) = classes.push(class_of(table, race)) else {
            return Err(NoMemory);
        };
    }
    Ok(classes)
}

fn class_of(table: &Table, race: &Race) -> Class
    requires first { race.now.first < length table.now }
    requires second { race.now.second < length table.now }
    ensures { result ≡ spec.class_by_number (accesses_of table.now) race.now }
{
    Class {
        first: table.access(race.first).action,
        second: table.access(race.second).action,
    }
}
