//! The writers of a report, and of a refusal.

ghost use Rattle.std.specs.Prelude.{◌≡◌, ◌≤◌, List, ◌++◌, length, All, OnOk, OnErr};
ghost use Rattle.er_io.specs.Ends.{Gets, GetsPart, Puts};
ghost use Rattle.er_paths.specs.Paths.{joins};
ghost use Rattle.er_clocks.specs.Clock.{Tells};
ghost use Rattle.er_access.specs.Kept.{Kept};
ghost use Rattle.er_races.specs.Races.{races_of, most_races, ArePairs, IsWithin};
ghost use Rattle.er_cover.specs.Groups.{grouping_of};
ghost use Rattle.er_syntax.specs.Buffered.{CountsFaults, HoldsRest};
ghost use Rattle.er_report.specs.Report.{race_lines, cover_lines, group_lines, report_of, report, refusal};

use crate::counts::{Counts, count_all};
use crate::lines::{CoverLine, GroupLine, Opening, RaceLine, Refusal};
use er_access::Table;
use er_clocks::Clocks;
use er_cover::Groups;
use er_io::{Failed, Sink, WriteFault};
use er_races::Race;
use er_syntax::{Buffer, flush, put_text};
use er_text::Cause;

/// Writes the report of a table, with its races by these clocks and their groups. It
/// takes no memory.
pub fn write_report<K: Sink>(
    sink: &mut K,
    table: &Table,
    clocks: &Clocks,
    races: &[Race],
    groups: &Groups,
) -> Result<(), WriteFault>
    requires races { races.now ≡ races_of (joins clocks.now) table.now }
    requires groups { groups.now ≡ grouping_of (joins clocks.now) table.now }
    ensures { Tells clocks.now (λ lists.
        Puts K.got K.faults sink.old (report lists table.now) sink.new result) }
{
    let counts = count_all(table, clocks, races, groups);
    put_report(sink, table, races, groups, &counts)?;
    Ok(())
}

/// Writes the line of a refusal. It takes no memory.
#[tactic(auto, using(er_io::proofs::Puts::composes))]
pub fn write_refusal<K: Sink>(sink: &mut K, line: u32, cause: Cause) -> Result<(), WriteFault>
    ensures { Puts K.got K.faults sink.old (refusal line cause) sink.new result }
{
    let mut buffer = Buffer::new();
    put_text(sink, &mut buffer, &Refusal { line, cause })?;
    flush(sink, &mut buffer)?;
    Ok(())
}

/// Writes the report of these races, groups and counts.
#[tactic(auto, using(er_io::proofs::Puts::composes))]
fn put_report<K: Sink>(
    sink: &mut K,
    table: &Table,
    races: &[Race],
    groups: &Groups,
    counts: &Counts,
) -> Result<(), Failed>
    requires within { All (IsWithin table.now) races.now }
    requires few { length races.now ≤ most_races }
    requires names { length groups.now.names ≡ length races.now }
    requires sizes { length groups.now.sizes ≡ length groups.now.representatives }
    ensures whole { (pairs : List (Kept × Kept)) → ArePairs table.now races.now pairs
        → OnOk result (Gets (K.got sink.old) (report_of pairs groups.now counts.now)
        (K.got sink.new)) }
    ensures part { (pairs : List (Kept × Kept)) → ArePairs table.now races.now pairs
        → OnErr result (GetsPart (K.got sink.old) (report_of pairs groups.now counts.now)
        (K.got sink.new)) }
    ensures counts { CountsFaults K.faults sink.old sink.new result }
{
    let mut buffer = Buffer::new();
    put_text(sink, &mut buffer, &Opening)?;
    put_races(sink, &mut buffer, table, races)?;
    put_covers(sink, &mut buffer, groups, races.len() as u32)?;
    put_groups(sink, &mut buffer, groups)?;
    put_text(sink, &mut buffer, counts)?;
    flush(sink, &mut buffer)
}

/// Puts the lines of the races into the buffer.
fn put_races<K: Sink>(
    sink: &mut K,
    buffer: &mut Buffer,
    table: &Table,
    races: &[Race],
) -> Result<(), Failed>
    requires { All (IsWithin table.now) races.now }
    ensures whole { (pairs : List (Kept × Kept)) → ArePairs table.now races.now pairs
        → OnOk result (HoldsRest (K.got sink.old) (buffer.old ++ race_lines pairs)
        (K.got sink.new) buffer.new) }
    ensures part { (pairs : List (Kept × Kept)) → ArePairs table.now races.now pairs
        → OnErr result (GetsPart (K.got sink.old) (buffer.old ++ race_lines pairs)
        (K.got sink.new)) }
    ensures counts { CountsFaults K.faults sink.old sink.new result }
{
    for (place, race) in races.iter().enumerate() {
        let first = table.access(race.first);
        let second = table.access(race.second);
        let loc = table.location(first.location);
        let number = place as u64 + 1;
        let line = RaceLine {
            number,
            first,
            second,
            loc,
        };
        put_text(sink, buffer, &line)?;
    }
    Ok(())
}

/// Puts the lines of the groups that the races name into the buffer.
fn put_covers<K: Sink>(
    sink: &mut K,
    buffer: &mut Buffer,
    groups: &Groups,
    races: u32,
) -> Result<(), Failed>
    requires { races ≡ length groups.now.names }
    ensures whole { OnOk result (HoldsRest (K.got sink.old) (buffer.old ++ cover_lines groups.now)
        (K.got sink.new) buffer.new) }
    ensures part { OnErr result (GetsPart (K.got sink.old) (buffer.old ++ cover_lines groups.now)
        (K.got sink.new)) }
    ensures counts { CountsFaults K.faults sink.old sink.new result }
{
    for k in 0..races {
        let group = groups.names(k);
        let number = k as u64 + 1;
        put_text(sink, buffer, &CoverLine { number, group })?;
    }
    Ok(())
}

/// Puts the lines of the groups into the buffer.
pub(crate) fn put_groups<K: Sink>(
    sink: &mut K,
    buffer: &mut Buffer,
    groups: &Groups,
) -> Result<(), Failed>
    requires { length groups.now.sizes ≡ length groups.now.representatives }
    ensures whole { OnOk result (HoldsRest (K.got sink.old) (buffer.old ++ group_lines groups.now)
        (K.got sink.new) buffer.new) }
    ensures part { OnErr result (GetsPart (K.got sink.old) (buffer.old ++ group_lines groups.now)
        (K.got sink.new)) }
    ensures counts { CountsFaults K.faults sink.old sink.new result }
{
    for g in 0..groups.count() {
        let line = GroupLine {
            number: g as u64 + 1,
            representative: groups.representative(g),
            size: groups.size(g),
        };
        put_text(sink, buffer, &line)?;
    }
    Ok(())
}
