//! From races to groups.

ghost use Rattle.std.specs.Prelude.{◌≡◌, ◌+◌, ◌*◌, ◌<◌, ◌≤◌, ◌^◌, Err, length, All, IfOk, OnOk};
ghost use Rattle.er_paths.specs.Paths.{joins};
ghost use Rattle.er_races.specs.Races.{races_of, most_races};
ghost use Rattle.er_cover.specs.Classes.{classes_of};
ghost use Rattle.er_cover.specs.Groups.{grouping_of, most_classes, most_tests};

use crate::parts::{gather, make_classes, name_part};
use crate::{CoverFault, Groups};
use er_access::Table;
use er_clocks::{Clocks, Meter};
use er_races::Race;
use std::alloc::Global;

/// Groups the races of a table by the classes that no other class covers.
///
/// Whether one class covers another is one or two comparisons of the clocks.
pub fn group(
    alloc: Global,
    races: &[Race],
    table: &Table,
    clocks: &Clocks,
    tests: &mut Meter,
) -> Result<Groups, CoverFault>
    requires known { All (λ x. x.action < length clocks.now) table.now }
    requires races { races.now ≡ races_of (joins clocks.now) table.now }
    requires few { length races.now ≤ most_races }
    requires room { tests.old < 2 ^ 61 }
    ensures groups { IfOk result (λ v. v ≡ grouping_of (joins clocks.now) table.now) }
    ensures each { IfOk result (λ v. length v.names ≡ length races.now) }
    ensures few { OnOk result (length (classes_of (joins clocks.now) table.now) ≤ most_classes) }
    ensures many { result ≡ Err CoverFault.TooManyClasses
        → most_classes < length (classes_of (joins clocks.now) table.now) }
    ensures bound { tests.new ≤ tests.old + most_tests (joins clocks.now) table.now }
    ensures rises { tests.old ≤ tests.new }
{
    let classes = match make_classes(alloc, races, table, clocks, tests) {
        Ok(classes) => classes,
        Err(fault) => return Err(fault),
    };
    let mut naming = Meter::new();
    let names = name_part(alloc, &classes, clocks, 0, classes.count(), &mut naming);
    tests.absorb(naming);
    let groups = gather(alloc, classes, names?.as_slice())?;
    Ok(groups)
}
