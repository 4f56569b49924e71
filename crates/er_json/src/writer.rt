//! The writers of the line of a report, and of that of a refusal.

ghost use Rattle.std.specs.Prelude.{◌≡◌, ◌≤◌, List, ◌++◌, length, All, OnOk, OnErr};
ghost use Rattle.std.specs.List.{flat_map};
ghost use Rattle.er_io.specs.Ends.{Gets, GetsPart, Puts};
ghost use Rattle.er_paths.specs.Paths.{joins};
ghost use Rattle.er_clocks.specs.Clock.{Tells};
ghost use Rattle.er_access.specs.Kept.{Kept};
ghost use Rattle.er_races.specs.Races.{races_of, most_races, ArePairs, IsWithin};
ghost use Rattle.er_cover.specs.Groups.{grouping_of};
ghost use Rattle.er_syntax.specs.Buffered.{CountsFaults, HoldsRest};
ghost use Rattle.er_json.specs.Json as spec;
ghost use Rattle.er_json.specs.Parts.{part_text};
ghost use Rattle.er_json.specs.Fragments.{group_items, race_items, fragments_of};

use crate::fragments::{
    parts_after_races, parts_before_groups, parts_before_races, parts_of_group, parts_of_race,
    parts_of_refusal,
};
use crate::parts::{Fragment, Part};
use er_access::Table;
use er_clocks::Clocks;
use er_cover::Groups;
use er_io::{Failed, Sink, WriteFault};
use er_races::Race;
use er_report::{Counts, count_all};
use er_syntax::{Buffer, flush, put_text};
use er_text::Cause;

/// Writes the line of the report of a table, with its races by these clocks and their groups. It
/// takes no memory.
pub fn write_json_report<K: Sink>(
    sink: &mut K,
    table: &Table,
    clocks: &Clocks,
    races: &[Race],
    groups: &Groups,
) -> Result<(), WriteFault>
    requires races { races.now ≡ races_of (joins clocks.now) table.now }
    requires groups { groups.now ≡ grouping_of (joins clocks.now) table.now }
    ensures { Tells clocks.now (λ lists.
        Puts K.got K.faults sink.old (spec.report lists table.now) sink.new result) }
{
    let counts = count_all(table, clocks, races, groups);
    put_report(sink, table, races, groups, &counts)?;
    Ok(())
}

/// Writes the line of a refusal. It takes no memory.
#[tactic(auto, using(er_io::proofs::Puts::composes))]
pub fn write_json_refusal<K: Sink>(sink: &mut K, line: u32, cause: Cause) -> Result<(), WriteFault>
    ensures { Puts K.got K.faults sink.old (spec.refusal line cause) sink.new result }
{
    let mut buffer = Buffer::new();
    put_fragment(sink, &mut buffer, &parts_of_refusal(line, cause))?;
    flush(sink, &mut buffer)?;
    Ok(())
}

/// Writes the line of these races, groups and counts.
#[tactic(auto, using(er_io::proofs::Puts::composes))]
fn put_report<K: Sink>(
    sink: &mut K,
    table: &Table,
    races: &[Race],
    groups: &Groups,
    counts: &Counts,
) -> Result<(), Failed>
    requires within { All (IsWithin table.now) races.now }
    requires few { length races.now ≤ most_races }
    requires names { length groups.now.names ≡ length races.now }
    requires sizes { length groups.now.sizes ≡ length groups.now.representatives }
    ensures whole { (pairs : List (Kept × Kept)) → ArePairs table.now races.now pairs
        → OnOk result (Gets (K.got sink.old) (fragments_of pairs groups.now counts.now)
        (K.got sink.new)) }
    ensures part { (pairs : List (Kept × Kept)) → ArePairs table.now races.now pairs
        → OnErr result (GetsPart (K.got sink.old) (fragments_of pairs groups.now counts.now)
        (K.got sink.new)) }
    ensures counts { CountsFaults K.faults sink.old sink.new result }
{
    let mut buffer = Buffer::new();
    put_fragment(sink, &mut buffer, &parts_before_groups(counts))?;
    put_groups(sink, &mut buffer, groups)?;
    put_fragment(sink, &mut buffer, &parts_before_races(counts))?;
    put_races(sink, &mut buffer, table, races, groups)?;
    put_fragment(sink, &mut buffer, &parts_after_races())?;
    flush(sink, &mut buffer)
}

/// Puts the groups into the buffer.
fn put_groups<K: Sink>(sink: &mut K, buffer: &mut Buffer, groups: &Groups) -> Result<(), Failed>
    requires { length groups.now.sizes ≡ length groups.now.representatives }
    ensures whole { OnOk result (HoldsRest (K.got sink.old) (buffer.old ++ group_items groups.now)
        (K.got sink.new) buffer.new) }
    ensures part { OnErr result (GetsPart (K.got sink.old) (buffer.old ++ group_items groups.now)
        (K.got sink.new)) }
    ensures counts { CountsFaults K.faults sink.old sink.new result }
{
    for g in 0..groups.count() {
        let parts = parts_of_group(g as u64 + 1, groups.representative(g), groups.size(g));
        put_fragment(sink, buffer, &parts)?;
    }
    Ok(())
}

/// Puts the races into the buffer.
fn put_races<K: Sink>(
    sink: &mut K,
    buffer: &mut Buffer,
    table: &Table,
    races: &[Race],
    groups: &Groups,
) -> Result<(), Failed>
    requires within { All (IsWithin table.now) races.now }
    requires few { length races.now ≤ most_races }
    requires names { length groups.now.names ≡ length races.now }
    ensures whole { (pairs : List (Kept × Kept)) → ArePairs table.now races.now pairs
        → OnOk result (HoldsRest (K.got sink.old) (buffer.old ++ race_items pairs groups.now)
        (K.got sink.new) buffer.new) }
    ensures part { (pairs : List (Kept × Kept)) → ArePairs table.now races.now pairs
        → OnErr result (GetsPart (K.got sink.old) (buffer.old ++ race_items pairs groups.now)
        (K.got sink.new)) }
    ensures counts { CountsFaults K.faults sink.old sink.new result }
{
    for (place, race) in races.iter().enumerate() {
        let first = table.access(race.first);
        let second = table.access(race.second);
        let loc = table.location(first.location);
        let group = groups.names(place as u32);
        let parts = parts_of_race(place as u64 + 1, first, second, loc, group);
        put_fragment(sink, buffer, &parts)?;
    }
    Ok(())
}

/// Puts the parts into the buffer, as one text.
fn put_fragment<K: Sink>(sink: &mut K, buffer: &mut Buffer, parts: &[Part]) -> Result<(), Failed>
    ensures whole { OnOk result (HoldsRest (K.got sink.old)
        (buffer.old ++ flat_map part_text parts.now) (K.got sink.new) buffer.new) }
    ensures part { OnErr result (GetsPart (K.got sink.old)
        (buffer.old ++ flat_map part_text parts.now) (K.got sink.new)) }
    ensures counts { CountsFaults K.faults sink.old sink.new result }
{
    put_text(sink, buffer, &Fragment { parts })
}
