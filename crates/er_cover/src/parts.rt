//! The parts of a grouping: the classes and the groups among them, what some classes name, and all
//! of it together.

ghost use Rattle.std.specs.Prelude.{◌≡◌, ◌+◌, ◌-◌, ◌*◌, ◌<◌, ◌≤◌, ◌^◌, ℕ, Bool, Err, length, take, drop, All, IfOk, OnOk};
ghost use Rattle.er_paths.specs.Paths.{joins};
ghost use Rattle.er_races.specs.Races.{races_of, most_races};
ghost use Rattle.er_cover.specs.Classes.{each_once, classes_of as classes_over};
ghost use Rattle.er_cover.specs.Groups.{grouping_by, groups_of, most_classes};
ghost use Rattle.er_cover.specs.Parts.{IsOver, class_names, names_between, once_of, classing_by, classing_of};
ghost use Rattle.er_cover.specs.Passes.{HasTooMany, IsKnown, maximal_tests};

use crate::class::classes_by_race;
use crate::classes::{Distinct, classes_of, look_up};
use crate::maximal::maximal_of;
use crate::names::{name_all, sizes_of};
use crate::{Class, CoverFault, Groups};
use er_access::Table;
use er_clocks::{Clocks, Meter};
use er_io::NoMemory;
use er_races::Race;
use indexmap::IndexSet;
use std::alloc::Global;
use std::marker::Model;

/// The most classes that are grouped.
const MOST_CLASSES: usize = 32_768;

/// The class of each race, the classes in the order of their first races, and the groups
/// among them.
pub struct Classes {
    by_race: Vec<Class>,
    distinct: Distinct,
    groups: IndexSet<Class>,
}

impl Drop for Classes {
    fn drop(self) {
        let Classes {
            by_race: _,
            distinct: _,
            groups: _,
        } = self;
    }
}

impl Model for Classes {
    ghost use Rattle.er_cover.specs.Parts.{IsClassing, Classing, classing};

    ghost Value = { Classing };

    ghost view = { λ c. classing c.by_race.items c.groups.keys };

    ghost invariant = { λ c.
        IsClassing c.by_race.items c.distinct.set.keys c.distinct.firsts.items c.groups.keys };
}

impl Classes {
    /// How many classes there are.
    pub fn count(&self) -> u32
        ensures count { result ≡ length (once_of self.now) }
        ensures few { result ≤ most_classes }
    {
        self.distinct.set.len() as u32
    }

    /// How many groups there are.
    pub fn groups(&self) -> u32
        ensures count { result ≡ length self.now.groups }
        ensures few { result ≤ most_classes }
    {
        self.groups.len() as u32
    }

    /// The classes from one number up to another.
    fn between(&self, from: u32, to: u32) -> &[Class]
        requires order { from ≤ to }
        requires within { to ≤ length (once_of self.now) }
        ensures { result.now ≡ take (to - from) (drop from (once_of self.now)) }
    {
        &self.distinct.set.as_slice()[from as usize..to as usize]
    }
}

/// The classes of the races of a table, and the groups among them.
pub fn make_classes(
    alloc: Global,
    races: &[Race],
    table: &Table,
    clocks: &Clocks,
    tests: &mut Meter,
) -> Result<Classes, CoverFault>
    requires known { All (λ x. x.action < length clocks.now) table.now }
    requires races { races.now ≡ races_of (joins clocks.now) table.now }
    requires few { length races.now ≤ most_races }
    requires room { tests.old < 2 ^ 61 }
    ensures classes { IfOk result (λ c. c ≡ classing_of (joins clocks.now) table.now) }
    ensures known { IfOk result (λ c. All (IsKnown (length clocks.now)) c.by_race) }
    ensures few { OnOk result (length (classes_over (joins clocks.now) table.now) ≤ most_classes) }
    ensures many { result ≡ Err CoverFault.TooManyClasses
        → most_classes < length (classes_over (joins clocks.now) table.now) }
    ensures bound { tests.new
        ≤ tests.old + 2 * (length (classes_over (joins clocks.now) table.now)
        * length (groups_of (joins clocks.now) table.now)) }
    ensures rises { tests.old ≤ tests.new }
{
    let by_race = classes_by_race(alloc, races, table)?;
    with_groups(alloc, by_race, clocks, tests)
}

/// The classes of races of these classes, each once, and the groups among them.
fn with_groups(
    alloc: Global,
    by_race: Vec<Class>,
    clocks: &Clocks,
    tests: &mut Meter,
) -> Result<Classes, CoverFault>
    requires known { All (IsKnown (length clocks.now)) by_race.items }
    requires few { length by_race.items ≤ most_races }
    requires room { tests.old < 2 ^ 61 }
    ensures classes { IfOk result (λ c. c ≡ classing_by (joins clocks.now) by_race.items) }
    ensures few { OnOk result (length (each_once by_race.items) ≤ most_classes) }
    ensures many { result ≡ Err CoverFault.TooManyClasses → HasTooMany by_race.items }
    ensures bound { tests.new
        ≤ tests.old + maximal_tests (joins clocks.now) (each_once by_race.items) }
    ensures rises { tests.old ≤ tests.new }
{
    let distinct = classes_of(alloc, by_race.as_slice())?;
    if distinct.set.len() > MOST_CLASSES {
        return Err(CoverFault::TooManyClasses);
    }
    let groups = maximal_of(alloc, distinct.set.as_slice(), clocks, tests)?;
    Ok(Classes {
        by_race,
        distinct,
        groups,
    })
}

/// The groups that the classes from one number up to another name.
pub fn name_part(
    alloc: Global,
    classes: &Classes,
    clocks: &Clocks,
    from: u32,
    to: u32,
    tests: &mut Meter,
) -> Result<Vec<u32>, NoMemory>
    requires order { from ≤ to }
    requires within { to ≤ length (once_of classes.now) }
    requires over { IsOver (joins clocks.now) classes.now }
    requires known { All (IsKnown (length clocks.now)) classes.now.by_race }
    requires room { tests.old < 2 ^ 61 }
    ensures names { IfOk result
        (λ v. v.items ≡ names_between (joins clocks.now) classes.now from to) }
    ensures bound { tests.new ≤ tests.old + 2 * ((to - from) * length classes.now.groups) }
    ensures rises { tests.old ≤ tests.new }
{
    let part = classes.between(from, to);
    name_all(alloc, &classes.groups, part, clocks, tests)
}

/// The groups, from what each class names.
pub fn gather(alloc: Global, classes: Classes, names: &[u32]) -> Result<Groups, NoMemory>
    requires long { length names.now ≡ length (once_of classes) }
    requires below { All (λ g. g < length classes.groups) names.now }
    ensures { IfOk result (λ v. (joined : ℕ → ℕ → Bool) → IsOver joined classes
        → names.now ≡ class_names joined classes → v ≡ grouping_by joined classes.by_race) }
{
    let set = &classes.distinct.set;
    let groups = &classes.groups;
    let race_names = look_up(alloc, set, names, classes.by_race.as_slice())?;
    let representatives = look_up(
        alloc,
        set,
        classes.distinct.firsts.as_slice(),
        groups.as_slice(),
    )?;
    let sizes = sizes_of(alloc, race_names.as_slice(), groups.len())?;
    Ok(Groups {
        names: race_names,
        representatives,
        sizes,
    })
}
