//! The races at one location.

ghost use Rattle.std.specs.Prelude.{◌≡◌, ◌+◌, ◌<◌, ◌≤◌, ◌^◌, [], ◌∷◌, ◌++◌, All, length, OnOk, IfErr};
ghost use Rattle.std.specs.List.Sorted.{IsPermutation};
ghost use Rattle.er_access.specs.Numbers.{accesses_of, locations_of};
ghost use Rattle.er_races.specs.Races.{most_races};
ghost use Rattle.er_races.specs.Pairs.{with_second};
ghost use Rattle.er_races.specs.Listing.{candidates_at, candidates_with, races_at, races_with};
ghost use Rattle.er_races.specs.Fronts.{unjoined, AreColumns, IsFront};

use crate::columns::{Columns, front_len};
use crate::{ListFault, Race};
use er_access::Table;
use er_clocks::{Meter, Paths};

/// The most races that are listed.
pub const MOST_RACES: usize = 262_144;

/// Lists the races at one location: of each access with the earlier ones.
pub(crate) fn list_location<P: Paths>(
    table: &Table,
    k: u32,
    paths: &P,
    columns: &mut Columns,
    meter: &mut Meter,
    found: &mut Vec<Race>,
) -> Result<(), ListFault>
    requires within { k < length (locations_of table.now) }
    requires known { All (λ x. x.action < P.actions paths.now) (accesses_of table.now) }
    requires room { meter.old + length (candidates_at table.now k) < 2 ^ 61 + 2 ^ 25 }
    requires few { length found.old.items ≤ most_races }
    ensures found { OnOk result (IsPermutation found.new.items
        (found.old.items ++ races_at (P.joins paths.now) table.now k)) }
    ensures once { OnOk result (meter.new ≡ meter.old + length (candidates_at table.now k)) }
    ensures few { OnOk result (length found.new.items ≤ most_races) }
    ensures many { IfErr result (λ fault. fault ≡ ListFault.TooManyRaces
        → most_races < length found.old.items
        + length (races_at (P.joins paths.now) table.now k)) }
    ensures at_most { meter.new ≤ meter.old + length (candidates_at table.now k) }
    ensures rises { meter.old ≤ meter.new }
{
    columns.clear();
    let rows = table.rows(k);
    for n in 0..rows.len() {
        let earlier = &rows[..n];
        if let Err(fault) = list_second(table, earlier, rows[n], columns, paths, meter, found) {
            return Err(fault);
        }
        columns.note(table, rows[n])?;
    }
    Ok(())
}

/// Lists the races of one access with these earlier ones, which stand in the columns.
fn list_second<P: Paths>(
    table: &Table,
    earlier: &[u32],
    second: u32,
    columns: &Columns,
    paths: &P,
    meter: &mut Meter,
    found: &mut Vec<Race>,
) -> Result<(), ListFault>
    requires second { second < length table.now }
    requires earlier { IsFront (accesses_of table.now) earlier.now second }
    requires columns { AreColumns (accesses_of table.now) earlier.now columns.now }
    requires known { All (λ x. x.action < P.actions paths.now) (accesses_of table.now) }
    requires room { meter.old + length (candidates_with table.now second earlier.now) < 2 ^ 62 }
    requires few { length found.old.items ≤ most_races }
    ensures found { OnOk result (found.new.items
        ≡ found.old.items
        ++ with_second (races_with (P.joins paths.now) table.now second earlier.now) second) }
    ensures once { OnOk result (meter.new
        ≡ meter.old + length (candidates_with table.now second earlier.now)) }
    ensures few { OnOk result (length found.new.items ≤ most_races) }
    ensures many { IfErr result (λ fault. fault ≡ ListFault.TooManyRaces
        → most_races < length found.old.items
        + length (races_with (P.joins paths.now) table.now second earlier.now)) }
    ensures at_most { meter.new
        ≤ meter.old + length (candidates_with table.now second earlier.now) }
    ensures rises { meter.old ≤ meter.new }
{
    let access = table.access(second);
    let column = columns.partners(earlier, access.mode);
    let count = front_len(column.actions, access.action);
    let numbers = &column.numbers[..count];
    let actions = &column.actions[..count];
    list_front(numbers, actions, second, access.action, paths, meter, found)
}

/// Lists a later access with those of these whose actions do not join its own.
fn list_front<P: Paths>(
    numbers: &[u32],
    actions: &[u32],
    second: u32,
    action: u32,
    paths: &P,
    meter: &mut Meter,
    found: &mut Vec<Race>,
) -> Result<(), ListFault>
    requires paired { length numbers.now ≡ length actions.now }
    requires known { All (λ a. a < P.actions paths.now) actions.now }
    requires action { action < P.actions paths.now }
    requires room { meter.old + length actions.now < 2 ^ 62 }
    requires few { length found.old.items ≤ most_races }
    ensures found { OnOk result (found.new.items
        ≡ found.old.items
        ++ with_second
        (unjoined (λ a. P.joins paths.now a action) numbers.now actions.now) second) }
    ensures once { OnOk result (meter.new ≡ meter.old + length actions.now) }
    ensures few { OnOk result (length found.new.items ≤ most_races) }
    ensures many { IfErr result (λ fault. fault ≡ ListFault.TooManyRaces
        → most_races < length found.old.items
        + length (unjoined (λ a. P.joins paths.now a action) numbers.now actions.now)) }
    ensures at_most { meter.new ≤ meter.old + length actions.now }
    ensures rises { meter.old ≤ meter.new }
{
    let mut from = 0;
    while from < actions.len() {
        let at = from + paths.first_apart(&actions[from..], action, meter);
        if at == actions.len() {
            return Ok(());
        }
        let first = numbers[at];
        if let Err(fault) = keep(found, Race { first, second }) {
            return Err(fault);
        }
        from = at + 1;
    }
    Ok(())
}

/// One race more.
fn keep(found: &mut Vec<Race>, race: Race) -> Result<(), ListFault>
    requires few { length found.old.items ≤ most_races }
    ensures found { OnOk result (found.new.items ≡ found.old.items ++ race ∷ []) }
    ensures few { OnOk result (length found.new.items ≤ most_races) }
    ensures many { IfErr result
        (λ fault. fault ≡ ListFault.TooManyRaces → length found.old.items ≡ most_races) }
{
    if found.len() == MOST_RACES {
        return Err(ListFault::TooManyRaces);
    }
    let Ok(()) = found.push(race) else {
        return Err(ListFault::NoMemory);
    };
    Ok(())
}
