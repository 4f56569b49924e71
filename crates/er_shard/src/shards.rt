//! The locations, split among shards, each in a thread.

ghost use Rattle.std.specs.Prelude.{◌≡◌, ℕ, ◌+◌, ◌<◌, ◌≤◌, ◌^◌, All, length, OnOk, IfOk, Err};
ghost use Rattle.std.specs.Thread.{IsSync};
ghost use Rattle.er_access.specs.Kept.{candidates_of};
ghost use Rattle.er_trace.specs.Limits.{most_shards};
ghost use Rattle.er_races.specs.Races.{races_of, races_by, most_pairs, most_races, AreTooMany};
ghost use Rattle.er_shard.specs.Parts.{IsPart};

use crate::part::{Part, together};
use crate::{Gate, Work};
use er_access::Table;
use er_clocks::{Meter, Paths};
use er_races::{ListFault, Race, list_part};
use std::thread::join;

/// Lists the races in the order of their accesses, as `list` of er_races does, by all
/// shards of the work.
///
/// A shard works on the locations k with `k % shards == shard`, in a thread if one can be made, and
/// calls the gate before its first comparison.
pub fn list_shards<R: Gate + Sync, P: Paths + Sync>(
    work: &Work<'_, R>,
    table: &Table,
    paths: &P,
    meter: &mut Meter,
) -> Result<Vec<Race>, ListFault>
    requires some { 1 ≤ work.now.shards }
    requires most { work.now.shards ≤ most_shards }
    requires few { length (candidates_of table.now) ≤ most_pairs }
    requires known { All (λ x. x.action < P.actions paths.now) table.now }
    requires room { meter.old < 2 ^ 61 }
    ensures races { IfOk result (λ races. races.items ≡ races_of (P.joins paths.now) table.now) }
    ensures once { OnOk result (meter.new ≡ meter.old + length (candidates_of table.now)) }
    ensures few { OnOk result (length (races_by (P.joins paths.now) table.now) ≤ most_races) }
    ensures many { result ≡ Err ListFault.TooManyRaces → AreTooMany (P.joins paths.now) table.now }
    ensures at_most { meter.new ≤ meter.old + length (candidates_of table.now) }
    ensures rises { meter.old ≤ meter.new }
{
    let all = list_between(work, table, paths, 0, work.shards);
    let Part { races, meter: made } = all;
    meter.absorb(made);
    match races {
        Ok(mut races) => {
            races.sort_unstable();
            Ok(races)
        }
        Err(fault) => Err(fault),
    }
}

#[cycle(halves)]
/// What the shards from `from` on and below `to` find: one shard, or two halves, each in a thread.
fn list_between<R: Gate + Sync, P: Paths + Sync>(
    work: &Work<'_, R>,
    table: &Table,
    paths: &P,
    from: u32,
    to: u32,
) -> Part
    requires some { from < to }
    requires within { to ≤ work.now.shards }
    requires few { length (candidates_of table.now) ≤ most_pairs }
    requires known { All (λ x. x.action < P.actions paths.now) table.now }
    ensures { IsPart work.now.shards from to (P.joins paths.now) table.now
        result.races result.meter }
{
    if to - from == 1 {
        return list_one(work, table, paths, from);
    }
    let middle = from + (to - from) / 2;
    let (rt, alloc, shards) = (work.rt, work.alloc, work.shards);
    let (left, right) = join(
        rt,
        || -> Part
            requires { IsSync R.row × (from < middle) × (middle ≤ shards)
                × (length (candidates_of table.now) ≤ most_pairs)
                × All (λ x. x.action < P.actions paths.now) table.now }
            ensures { IsPart shards from middle (P.joins paths.entry.now) table.entry.now
                result.races result.meter }
        {
            let half = Work { rt, alloc, shards };
            list_between(&half, table, paths, from, middle)
        },
        || -> Part
            requires { IsSync R.row × (middle < to) × (to ≤ shards)
                × (length (candidates_of table.now) ≤ most_pairs)
                × All (λ x. x.action < P.actions paths.now) table.now }
            ensures { IsPart shards middle to (P.joins paths.entry.now) table.entry.now
                result.races result.meter }
        {
            let half = Work { rt, alloc, shards };
            list_between(&half, table, paths, middle, to)
        },
    );
    together(left, right)
}

/// What one shard finds, after it called the gate.
fn list_one<R: Gate, P: Paths>(work: &Work<'_, R>, table: &Table, paths: &P, shard: u32) -> Part
    requires within { shard < work.now.shards }
    requires few { length (candidates_of table.now) ≤ most_pairs }
    requires known { All (λ x. x.action < P.actions paths.now) table.now }
    ensures { IsPart work.now.shards shard (shard + 1) (P.joins paths.now) table.now
        result.races result.meter }
{
    work.rt.enter(shard);
    let mut meter = Meter::new();
    let races = list_part(work.alloc, table, work.shards, shard, paths, &mut meter);
    Part { races, meter }
}
