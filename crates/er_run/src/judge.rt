//! Judges an input, a trace that is read or a generated one: it is accepted, or a line is refused.

ghost use Rattle.std.specs.Prelude.{◌≡◌, ◌≢◌, ℕ, ◌≤◌, List, Option, Some, None, Err, reverse, IfOk, IfErr, IsErrOf};
ghost use Rattle.er_text.specs.declared.causes.Cause.{Cause};
ghost use Rattle.er_trace.specs.declared.record.Record.{Record};
ghost use Rattle.er_trace.specs.declared.version.Version.TheVariants.{One};
ghost use Rattle.er_trace.specs.Trace.{text};
ghost use Rattle.er_lines.specs.Text.{text as text_lines};
ghost use Rattle.er_gen.specs.Generated.{generated, most_rounds};
ghost use Rattle.er_run.specs.Session.{IsSessionOf};
ghost use Rattle.er_run.specs.Answer.{FirstIllegal};
ghost use Rattle.er_run.specs.Legal.{end_cause_for};
ghost use Rattle.er_run.specs.Meters.{HaveRoom, Rise};
ghost use Rattle.er_run.specs.Reading.{IsRead, IsReading, IsAcceptedInput, IsRefusedInput, CountsReads};
ghost use Rattle.er_run.specs.Accepted.{IsAskable, IsJudged, IsJudgedFor, IsEndFault, IsReportable, IsVerdict};

use crate::end::found_within;
use crate::findings::Judged;
use crate::input::{InputFault, LineRefusal, read};
use crate::meters::Meters;
use crate::session::{Session, take_trace};
use er_gen::Generator;
use er_io::{Failed, Source};
use er_lines::format::Lines;
use er_shard::{Gate, Work};
use er_text::Cause;
use er_trace::fault::FeedFault;
use er_words::Command;

/// Judges the trace of the source. No chunk is read after the one that decides.
pub(crate) fn judge_input<L: Lines, R: Gate + Sync, S: Source>(
    work: &Work<'_, R>,
    command: Command,
    source: &mut S,
    meters: &mut Meters,
) -> Result<Judged, InputFault>
    requires asked { IsAskable work.now.shards command }
    requires room { HaveRoom meters.old }
    ensures accepted { IfOk result (λ judged.
        IsAcceptedInput L.format command (S.left source.old) (S.left source.new) judged) }
    ensures refused { (n : ℕ) (c : Cause)
        → result ≡ Err (InputFault.Fault (FeedFault.Refused n c))
        → IsRefusedInput L.format command (S.left source.old) (S.left source.new) n c }
    ensures judged { IfOk result (IsJudgedFor command meters.old meters.new) }
    ensures reads { CountsReads result (S.faults source.old) (S.faults source.new) }
    ensures rise { Rise meters.old meters.new }
{
    match read::<L, S>(work.alloc, source) {
        Ok((session, refused)) => match refused {
            None => judge_ended::<L, R, S>(work, command, source, session, meters),
            Some(refusal) => {
                let fault = first_refusal::<L, R>(work, command, &session, refusal, meters);
                Err(InputFault::Fault(fault))
            }
        },
        Err(fault) => Err(fault),
    }
}

/// Judges a trace whose `end` line was read: the line, and whether a byte follows it.
fn judge_ended<L: Lines, R: Gate + Sync, S: Source>(
    work: &Work<'_, R>,
    command: Command,
    source: &mut S,
    session: Session,
    meters: &mut Meters,
) -> Result<Judged, InputFault>
    requires asked { IsAskable work.now.shards command }
    requires some { IsReportable session }
    requires room { HaveRoom meters.old }
    ensures accepted { IfOk result (λ judged. (first : Option (List ℕ))
        → IsRead L.format first (S.left source.old) session None
        → IsAcceptedInput L.format command first (S.left source.new) judged) }
    ensures refused { (n : ℕ) (c : Cause)
        → result ≡ Err (InputFault.Fault (FeedFault.Refused n c))
        → (first : Option (List ℕ)) → IsRead L.format first (S.left source.old) session None
        → IsRefusedInput L.format command first (S.left source.new) n c }
    ensures judged { IfOk result (IsJudgedFor command meters.old meters.new) }
    ensures reads { CountsReads result (S.faults source.old) (S.faults source.new) }
    ensures rise { Rise meters.old meters.new }
{
    let after_end = session.next_line() + 1;
    let judged = match judge_end(work, command, session, meters) {
        Ok(judged) => judged,
        Err(fault) => return Err(InputFault::Fault(fault)),
    };
    let mut byte = [0u8; 1];
    match source.read(&mut byte) {
        Ok(0) => Ok(judged),
        Ok(_) => Err(InputFault::Fault(FeedFault::Refused {
            line: after_end,
            cause: Cause::AfterEnd,
        })),
        Err(Failed) => Err(InputFault::Failed),
    }
}

/// Returns the refusal of the `end` line, if it has a cause, and else that of the line after it,
/// which is no line of a trace.
fn first_refusal<L: Lines, R: Gate + Sync>(
    work: &Work<'_, R>,
    command: Command,
    session: &Session,
    refusal: LineRefusal,
    meters: &mut Meters,
) -> FeedFault
    requires asked { IsAskable work.now.shards command }
    requires some { IsReportable session.now }
    requires room { HaveRoom meters.old }
    ensures refused { (n : ℕ) (c : Cause) → result ≡ FeedFault.Refused n c
        → (bytes : List ℕ) (records : List Record)
        → IsSessionOf session.now (reverse records)
        → IsReading L.format session.now.graph.version bytes records (Some refusal)
        → FirstIllegal L.format command bytes n c }
    ensures rise { Rise meters.old meters.new }
{
    if refusal.line <= session.next_line() {
        return of_line(refusal);
    }
    if let Err(fault) = found_within(work, command, session, meters) {
        return fault;
    }
    of_line(refusal)
}

fn of_line(refusal: LineRefusal) -> FeedFault
    ensures { result ≡ FeedFault.Refused refusal.line refusal.cause }
{
    FeedFault::Refused {
        line: refusal.line,
        cause: refusal.cause,
    }
}

/// Judges the generated trace of so many rounds.
pub(crate) fn judge_generated<R: Gate + Sync>(
    work: &Work<'_, R>,
    command: Command,
    number: u32,
    meters: &mut Meters,
) -> Result<Judged, FeedFault>
    requires asked { IsAskable work.now.shards command }
    requires least { 1 ≤ number }
    requires most { number ≤ most_rounds }
    requires room { HaveRoom meters.old }
    ensures verdict { IsVerdict text_lines command (text One (generated number)) result }
    ensures judged { IfOk result (IsJudgedFor command meters.old meters.new) }
    ensures rise { Rise meters.old meters.new }
{
    let mut generator = Generator::new(work.alloc, number);
    match take_trace(work.alloc, &mut generator) {
        Ok(session) => judge_end(work, command, session, meters),
        Err(fault) => Err(fault),
    }
}

/// Judges the `end` line after the records of the session.
fn judge_end<R: Gate + Sync>(
    work: &Work<'_, R>,
    command: Command,
    session: Session,
    meters: &mut Meters,
) -> Result<Judged, FeedFault>
    requires asked { IsAskable work.now.shards command }
    requires some { IsReportable session }
    requires room { HaveRoom meters.old }
    ensures accepted { IfOk result (λ judged. (h : List Record) → IsSessionOf session h
        → IsJudged command judged.session judged.found h) }
    ensures refused { IfErr result (λ fault. (h : List Record) → IsSessionOf session h
        → IsEndFault (end_cause_for command session.graph.version h) h fault) }
    ensures version { IfOk result (λ judged. judged.session.graph.version ≡ session.graph.version) }
    ensures judged { IfOk result (IsJudgedFor command meters.old meters.new) }
    ensures rise { Rise meters.old meters.new }
{
    match found_within(work, command, &session, meters) {
        Ok(found) => Ok(Judged { session, found }),
        Err(fault) => Err(fault),
    }
}
