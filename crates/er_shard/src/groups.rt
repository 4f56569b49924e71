//! The naming of covers, split among shards, each in a thread.

ghost use Rattle.std.specs.Prelude.{◌≡◌, ℕ, ◌+◌, ◌<◌, ◌≤◌, ◌^◌, All, length, OnOk, IfOk, Err};
ghost use Rattle.std.specs.Thread.{IsSync};
ghost use Rattle.er_paths.specs.Paths.{joins};
ghost use Rattle.er_trace.specs.Limits.{most_shards};
ghost use Rattle.er_races.specs.Races.{races_of, most_races};
ghost use Rattle.er_cover.specs.Classes.{classes_of};
ghost use Rattle.er_cover.specs.Groups.{grouping_of, most_classes, most_tests};
ghost use Rattle.er_cover.specs.Parts.{IsOver, once_of};
ghost use Rattle.er_cover.specs.Passes.{IsKnown};
ghost use Rattle.er_shard.specs.Named.{IsNamed};

use crate::names::{Names, begin, together};
use crate::{Gate, Work};
use er_access::Table;
use er_clocks::{Clocks, Meter};
use er_cover::{Classes, CoverFault, Groups, gather, make_classes, name_part};
use er_races::Race;
use std::thread::join;

/// Groups the races of a table, as `group` of er_cover does, where the shards of the work
/// name the covers.
///
/// Each shard calls the gate before its first comparison.
pub fn group_shards<R: Gate + Sync>(
    work: &Work<'_, R>,
    races: &[Race],
    table: &Table,
    clocks: &Clocks,
    tests: &mut Meter,
) -> Result<Groups, CoverFault>
    requires some { 1 ≤ work.now.shards }
    requires most { work.now.shards ≤ most_shards }
    requires known { All (λ x. x.action < length clocks.now) table.now }
    requires races { races.now ≡ races_of (joins clocks.now) table.now }
    requires few { length races.now ≤ most_races }
    requires room { tests.old < 2 ^ 61 }
    ensures groups { IfOk result (λ v. v ≡ grouping_of (joins clocks.now) table.now) }
    ensures each { IfOk result (λ v. length v.names ≡ length races.now) }
    ensures few { OnOk result (length (classes_of (joins clocks.now) table.now) ≤ most_classes) }
    ensures many { result ≡ Err CoverFault.TooManyClasses
        → most_classes < length (classes_of (joins clocks.now) table.now) }
    ensures bound { tests.new ≤ tests.old + most_tests (joins clocks.now) table.now }
    ensures rises { tests.old ≤ tests.new }
{
    let classes = match make_classes(work.alloc, races, table, clocks, tests) {
        Ok(classes) => classes,
        Err(fault) => return Err(fault),
    };
    let all = name_between(work, &classes, clocks, 0, work.shards);
    let Names { names, meter } = all;
    tests.absorb(meter);
    match names {
        Ok(names) => match gather(work.alloc, classes, &names) {
            Ok(groups) => Ok(groups),
            Err(_) => Err(CoverFault::NoMemory),
        },
        Err(_) => Err(CoverFault::NoMemory),
    }
}

#[cycle(names)]
/// What the classes of the shards from `from` on and below `to` name: one shard, or two halves,
/// each in a thread.
fn name_between<R: Gate + Sync>(
    work: &Work<'_, R>,
    classes: &Classes,
    clocks: &Clocks,
    from: u32,
    to: u32,
) -> Names
    requires some { from < to }
    requires within { to ≤ work.now.shards }
    requires over { IsOver (joins clocks.now) classes.now }
    requires known { All (IsKnown (length clocks.now)) classes.now.by_race }
    requires few { length (once_of classes.now) ≤ most_classes }
    requires few_groups { length classes.now.groups ≤ most_classes }
    ensures { IsNamed work.now.shards from to (joins clocks.now) classes.now
        result.names result.meter }
{
    if to - from == 1 {
        return name_one(work, classes, clocks, from);
    }
    let middle = from + (to - from) / 2;
    let (rt, alloc, shards) = (work.rt, work.alloc, work.shards);
    let (left, right) = join(
        rt,
        || -> Names
            requires { IsSync R.row × (from < middle) × (middle ≤ shards)
                × IsOver (joins clocks.now) classes.now
                × All (IsKnown (length clocks.now)) classes.now.by_race
                × (length (once_of classes.now) ≤ most_classes)
                × (length classes.now.groups ≤ most_classes) }
            ensures { IsNamed shards from middle (joins clocks.entry.now) classes.entry.now
                result.names result.meter }
        {
            let half = Work { rt, alloc, shards };
            name_between(&half, classes, clocks, from, middle)
        },
        || -> Names
            requires { IsSync R.row × (middle < to) × (to ≤ shards)
                × IsOver (joins clocks.now) classes.now
                × All (IsKnown (length clocks.now)) classes.now.by_race
                × (length (once_of classes.now) ≤ most_classes)
                × (length classes.now.groups ≤ most_classes) }
            ensures { IsNamed shards middle to (joins clocks.entry.now) classes.entry.now
                result.names result.meter }
        {
            let half = Work { rt, alloc, shards };
            name_between(&half, classes, clocks, middle, to)
        },
    );
    together(left, right)
}

/// What the classes of one shard name, after it called the gate.
fn name_one<R: Gate>(work: &Work<'_, R>, classes: &Classes, clocks: &Clocks, shard: u32) -> Names
    requires within { shard < work.now.shards }
    requires over { IsOver (joins clocks.now) classes.now }
    requires known { All (IsKnown (length clocks.now)) classes.now.by_race }
    ensures { IsNamed work.now.shards shard (shard + 1) (joins clocks.now) classes.now
        result.names result.meter }
{
    work.rt.enter(shard);
    let count = classes.count();
    let from = begin(count, work.shards, shard);
    let to = begin(count, work.shards, shard + 1);
    let mut meter = Meter::new();
    let names = name_part(work.alloc, classes, clocks, from, to, &mut meter);
    Names { names, meter }
}
