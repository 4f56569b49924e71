//! The writer of a summary.

ghost use Rattle.std.specs.Prelude.{◌≡◌, length, OnOk, OnErr};
ghost use Rattle.er_io.specs.Ends.{Gets, GetsPart, Puts};
ghost use Rattle.er_paths.specs.Paths.{joins};
ghost use Rattle.er_clocks.specs.Clock.{Tells};
ghost use Rattle.er_races.specs.Races.{races_of};
ghost use Rattle.er_cover.specs.Groups.{grouping_of};
ghost use Rattle.er_syntax.specs.Buffered.{CountsFaults};
ghost use Rattle.er_report.specs.Report.{summary_of, summary};

use crate::counts::{Counts, count_all};
use crate::lines::Generated;
use crate::writer::put_groups;
use er_access::Table;
use er_clocks::Clocks;
use er_cover::Groups;
use er_io::{Failed, Sink, WriteFault};
use er_races::Race;
use er_syntax::{Buffer, flush, put_text};

/// Writes the summary of the trace that was generated for a number, with its races by these
/// clocks and their groups. It takes no memory.
pub fn write_summary<K: Sink>(
    sink: &mut K,
    number: u32,
    table: &Table,
    clocks: &Clocks,
    races: &[Race],
    groups: &Groups,
) -> Result<(), WriteFault>
    requires races { races.now ≡ races_of (joins clocks.now) table.now }
    requires groups { groups.now ≡ grouping_of (joins clocks.now) table.now }
    ensures { Tells clocks.now (λ lists.
        Puts K.got K.faults sink.old (summary number lists table.now) sink.new result) }
{
    let counts = count_all(table, clocks, races, groups);
    put_summary(sink, number, groups, &counts)?;
    Ok(())
}

/// Writes the summary of these groups and counts.
#[tactic(auto, using(er_io::proofs::Puts::composes))]
fn put_summary<K: Sink>(
    sink: &mut K,
    number: u32,
    groups: &Groups,
    counts: &Counts,
) -> Result<(), Failed>
    requires { length groups.now.sizes ≡ length groups.now.representatives }
    ensures whole { OnOk result (Gets (K.got sink.old) (summary_of number groups.now counts.now)
        (K.got sink.new)) }
    ensures part { OnErr result (GetsPart (K.got sink.old)
        (summary_of number groups.now counts.now) (K.got sink.new)) }
    ensures counts { CountsFaults K.faults sink.old sink.new result }
{
    let mut buffer = Buffer::new();
    put_text(sink, &mut buffer, &Generated { number })?;
    put_groups(sink, &mut buffer, groups)?;
    put_text(sink, &mut buffer, counts)?;
    flush(sink, &mut buffer)
}
