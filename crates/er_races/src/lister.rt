//! Which candidate pairs race.

ghost use Rattle.std.specs.Prelude.{◌≡◌, ℕ, ◌+◌, ◌<◌, ◌≤◌, ◌^◌, ◌++◌, All, length, OnOk, IfOk, IfErr, Err};
ghost use Rattle.std.specs.List.Sorted.{IsPermutation};
ghost use Rattle.er_access.specs.Kept.{candidates_of};
ghost use Rattle.er_access.specs.Numbers.{accesses_of, locations_of};
ghost use Rattle.er_races.specs.Races.{races_of, races_by, most_pairs, most_races, AreTooMany};
ghost use Rattle.er_races.specs.Listing.{candidates_in, leaves, own_candidates, own_races, races_in};

use crate::columns::Columns;
use crate::location::list_location;
use crate::{ListFault, Race};
use er_access::Table;
use er_clocks::{Meter, Paths};
use std::alloc::Global;

/// Lists the races in the order of their accesses: the candidate pairs whose first action does not
/// join the second.
///
/// Each candidate pair is compared once, location by location.
pub fn list<P: Paths>(
    alloc: Global,
    table: &Table,
    paths: &P,
    meter: &mut Meter,
) -> Result<Vec<Race>, ListFault>
    requires few { length (candidates_of table.now) ≤ most_pairs }
    requires known { All (λ x. x.action < P.actions paths.now) table.now }
    requires room { meter.old < 2 ^ 61 }
    ensures races { IfOk result (λ races. races.items ≡ races_of (P.joins paths.now) table.now) }
    ensures once { OnOk result (meter.new ≡ meter.old + length (candidates_of table.now)) }
    ensures few { OnOk result (length (races_by (P.joins paths.now) table.now) ≤ most_races) }
    ensures many { result ≡ Err ListFault.TooManyRaces → AreTooMany (P.joins paths.now) table.now }
    ensures at_most { meter.new ≤ meter.old + length (candidates_of table.now) }
    ensures rises { meter.old ≤ meter.new }
{
    match list_part(alloc, table, 1, 0, paths, meter) {
        Ok(mut found) => {
            found.sort_unstable();
            Ok(found)
        }
        Err(fault) => Err(fault),
    }
}

/// Lists the races at the locations whose number leaves the rest `shard`, in no order.
///
/// Each candidate pair at these locations is compared once.
pub fn list_part<P: Paths>(
    alloc: Global,
    table: &Table,
    shards: u32,
    shard: u32,
    paths: &P,
    meter: &mut Meter,
) -> Result<Vec<Race>, ListFault>
    requires split { 0 < shards }
    requires few { length (candidates_of table.now) ≤ most_pairs }
    requires known { All (λ x. x.action < P.actions paths.now) table.now }
    requires room { meter.old < 2 ^ 61 }
    ensures races { IfOk result (λ races. IsPermutation races.items
        (races_in (leaves shards shard) (P.joins paths.now) table.now)) }
    ensures once { OnOk result (meter.new
        ≡ meter.old + length (candidates_in (leaves shards shard) table.now)) }
    ensures few { IfOk result (λ races. length races.items ≤ most_races) }
    ensures many { result ≡ Err ListFault.TooManyRaces
        → most_races < length (races_in (leaves shards shard) (P.joins paths.now) table.now) }
    ensures at_most { meter.new
        ≤ meter.old + length (candidates_in (leaves shards shard) table.now) }
    ensures rises { meter.old ≤ meter.new }
{
    let mut found = Vec::new(alloc);
    let mut columns = Columns::new(alloc);
    for k in 0..table.locations() {
        let columns = &mut columns;
        if let Err(fault) = list_own(table, k, shards, shard, paths, columns, meter, &mut found) {
            return Err(fault);
        }
    }
    Ok(found)
}

/// Lists the races at one location, where its number leaves the rest.
fn list_own<P: Paths>(
    table: &Table,
    k: u32,
    shards: u32,
    shard: u32,
    paths: &P,
    columns: &mut Columns,
    meter: &mut Meter,
    found: &mut Vec<Race>,
) -> Result<(), ListFault>
    requires split { 0 < shards }
    requires within { k < length (locations_of table.now) }
    requires known { All (λ x. x.action < P.actions paths.now) (accesses_of table.now) }
    requires room { meter.old
        + length (own_candidates (leaves shards shard) table.now k) < 2 ^ 61 + 2 ^ 25 }
    requires few { length found.old.items ≤ most_races }
    ensures found { OnOk result (IsPermutation found.new.items
        (found.old.items ++ own_races (leaves shards shard) (P.joins paths.now) table.now k)) }
    ensures once { OnOk result (meter.new
        ≡ meter.old + length (own_candidates (leaves shards shard) table.now k)) }
    ensures few { OnOk result (length found.new.items ≤ most_races) }
    ensures many { IfErr result (λ fault. fault ≡ ListFault.TooManyRaces
        → most_races < length found.old.items
        + length (own_races (leaves shards shard) (P.joins paths.now) table.now k)) }
    ensures at_most { meter.new
        ≤ meter.old + length (own_candidates (leaves shards shard) table.now k) }
    ensures rises { meter.old ≤ meter.new }
{
    if k % shards == shard {
        list_location(table, k, paths, columns, meter, found)
    } else {
        Ok(())
    }
}
