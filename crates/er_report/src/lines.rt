//! The lines of a report, of a summary, and of a refusal.

ghost use Rattle.std.specs.Prelude.{ℕ, ◌+◌, List, [], ◌∷◌, ◌++◌, codes};
ghost use Rattle.er_io.specs.Ends.{Puts};
ghost use Rattle.er_report.specs.Fragments.{both_at};
ghost use Rattle.er_syntax.specs.Lines.{count_line};
ghost use Rattle.er_report.specs.Report.{opening_line, race_line, cover_line, group_line, closing_lines, refusal};

use crate::counts::Counts;
use er_access::Access;
use er_io::{Failed, Sink, put_all};
use er_syntax::Text;
use er_syntax::tokens::{
    end_with_loc, end_with_number, end_with_word, put_count, put_field, put_modes, put_word,
};
use er_text::Cause;
use er_trace::record::Loc;

/// The first line of a report.
#[derive(Drop)]
pub(crate) struct Opening;

impl Text for Opening {
    ghost text = { λ _. opening_line };

    fn put<K: Sink>(&self, sink: &mut K) -> Result<(), Failed> {
        put_count(sink, "report", 1)
    }
}

/// The first line of a summary.
#[derive(Drop)]
pub(crate) struct Generated {
    pub(crate) number: u32,
}

impl Text for Generated {
    ghost text = { λ generated. count_line (codes "generated") generated.number };

    fn put<K: Sink>(&self, sink: &mut K) -> Result<(), Failed> {
        put_count(sink, "generated", self.number as u64)
    }
}

/// The line of a race of two accesses, by the number of the race.
#[derive(Drop)]
pub struct RaceLine<'a> {
    pub number: u64,
    pub first: Access,
    pub second: Access,
    pub loc: &'a Loc,
}

impl<'a> Text for RaceLine<'a> {
    ghost text = { λ race. race_line race.number (both_at race.first race.second race.loc.now) };

    #[tactic(auto, using(er_io::proofs::Puts::composes, crate::proofs::LineLemmas::race_parts))]
    fn put<K: Sink>(&self, sink: &mut K) -> Result<(), Failed> {
        put_word(sink, "race")?;
        put_field(sink, self.number)?;
        put_field(sink, self.first.line as u64)?;
        put_field(sink, self.second.line as u64)?;
        put_modes(sink, self.first.mode, self.second.mode)?;
        put_field(sink, self.first.action as u64)?;
        put_field(sink, self.second.action as u64)?;
        end_with_loc(sink, self.loc)
    }
}

/// The line of the group that a race names, by the number of the race and the place of the group.
#[derive(Drop)]
pub(crate) struct CoverLine {
    pub(crate) number: u64,
    pub(crate) group: u32,
}

impl Text for CoverLine {
    ghost text = { λ cover. cover_line cover.number cover.group };

    #[tactic(auto, using(er_io::proofs::Puts::composes, crate::proofs::LineLemmas::cover_parts))]
    fn put<K: Sink>(&self, sink: &mut K) -> Result<(), Failed> {
        put_word(sink, "cover")?;
        put_field(sink, self.number)?;
        end_with_number(sink, self.group as u64 + 1)
    }
}

/// The line of a group, by its number and the place of its representative.
#[derive(Drop)]
pub(crate) struct GroupLine {
    pub(crate) number: u64,
    pub(crate) representative: u32,
    pub(crate) size: u32,
}

impl Text for GroupLine {
    ghost text = { λ group. group_line group.number (group.representative, group.size) };

    #[tactic(auto, using(er_io::proofs::Puts::composes, crate::proofs::LineLemmas::group_parts))]
    fn put<K: Sink>(&self, sink: &mut K) -> Result<(), Failed> {
        put_word(sink, "group")?;
        put_field(sink, self.number)?;
        put_field(sink, self.representative as u64 + 1)?;
        end_with_number(sink, self.size as u64)
    }
}

/// The counts, and the last line of a report.
impl Text for Counts {
    ghost text = { λ c. closing_lines c };

    #[tactic(auto, using(er_io::proofs::Puts::composes))]
    fn put<K: Sink>(&self, sink: &mut K) -> Result<(), Failed> {
        put_count(sink, "actions", self.actions)?;
        put_count(sink, "accesses", self.accesses)?;
        put_count(sink, "pairs", self.pairs)?;
        put_count(sink, "races", self.races)?;
        put_count(sink, "groups", self.groups)?;
        put_count(sink, "chains", self.chains)?;
        put_count(sink, "links", self.links)?;
        put_all(sink, b"end\n")
    }
}

/// The line of a refusal.
#[derive(Drop)]
pub(crate) struct Refusal {
    pub(crate) line: u32,
    pub(crate) cause: Cause,
}

impl Text for Refusal {
    ghost text = { λ r. refusal r.line r.cause };

    #[tactic(auto, using(er_io::proofs::Puts::composes, crate::proofs::LineLemmas::refusal_parts))]
    fn put<K: Sink>(&self, sink: &mut K) -> Result<(), Failed> {
        put_word(sink, "refused")?;
        put_field(sink, self.line as u64)?;
        end_with_word(sink, self.cause.name())
    }
}
