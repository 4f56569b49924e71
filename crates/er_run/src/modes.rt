//! Serves a command: judges the trace that is read, or a generated one, and answers it.

ghost use Rattle.std.specs.Prelude.{◌≡◌, ◌≢◌, ℕ, ◌≤◌, List, Option};
ghost use Rattle.er_gen.specs.Generated.{most_rounds};
ghost use Rattle.er_trace.specs.Limits.{most_shards};
ghost use Rattle.er_lines.specs.Text.{text as text_lines};
ghost use Rattle.er_run.specs.Answer.{format_of, lines_asked};
ghost use Rattle.er_run.specs.Promise.{Counts, IsSilent, Served, streams};
ghost use Rattle.er_run.specs.Accepted.{IsAskable};
ghost use Rattle.er_run.specs.Meters.{HaveRoom, Rise};

use crate::answer::answer;
use crate::input::InputFault;
use crate::judge::{judge_generated, judge_input};
use crate::meters::Meters;
use crate::outcome::Outcome;
use er_io::{Sink, Source};
use er_jsonl::JsonLines;
use er_lines::format::Lines;
use er_lines::text::TextLines;
use er_shard::{Gate, Work};
use er_words::{Command, Input};

/// Serves a command that reads, whose lines are as the command has them.
pub(crate) fn serve_input<R: Gate + Sync, S: Source, K: Sink>(
    work: &Work<'_, R>,
    command: Command,
    source: &mut S,
    sink: &mut K,
    meters: &mut Meters,
) -> Outcome
    requires asked { IsAskable work.now.shards command }
    requires reads { (n : ℕ) → command ≢ Command.Gen n }
    requires room { HaveRoom meters.old }
    ensures served { Served (format_of command) command
        (streams (S.left source.old) (K.got sink.old) (S.faults source.old) (K.faults sink.old))
        (streams (S.left source.new) (K.got sink.new) (S.faults source.new) (K.faults sink.new))
        meters.old meters.new result }
    ensures no_usage { result ≢ Outcome.Usage }
    ensures reads { Counts Outcome.ReadFault result (S.faults source.old) (S.faults source.new) }
    ensures writes { Counts Outcome.WriteFault result (K.faults sink.old) (K.faults sink.new) }
    ensures unwritten { IsSilent result → sink.new ≡ sink.old }
    ensures rise { Rise meters.old meters.new }
{
    match input_of(command) {
        Input::Text => serve_lines::<TextLines, R, S, K>(work, command, source, sink, meters),
        Input::Json => serve_lines::<JsonLines, R, S, K>(work, command, source, sink, meters),
    }
}

/// How the lines of a command's input are written.
fn input_of(command: Command) -> Input
    ensures { result ≡ lines_asked command }
{
    match command {
        Command::Check { json: _, input } => input,
        _ => Input::Text,
    }
}

/// Serves a command that reads, whose lines are read in this format.
fn serve_lines<L: Lines, R: Gate + Sync, S: Source, K: Sink>(
    work: &Work<'_, R>,
    command: Command,
    source: &mut S,
    sink: &mut K,
    meters: &mut Meters,
) -> Outcome
    requires asked { IsAskable work.now.shards command }
    requires reads { (n : ℕ) → command ≢ Command.Gen n }
    requires room { HaveRoom meters.old }
    ensures served { Served L.format command
        (streams (S.left source.old) (K.got sink.old) (S.faults source.old) (K.faults sink.old))
        (streams (S.left source.new) (K.got sink.new) (S.faults source.new) (K.faults sink.new))
        meters.old meters.new result }
    ensures no_usage { result ≢ Outcome.Usage }
    ensures reads { Counts Outcome.ReadFault result (S.faults source.old) (S.faults source.new) }
    ensures writes { Counts Outcome.WriteFault result (K.faults sink.old) (K.faults sink.new) }
    ensures unwritten { IsSilent result → sink.new ≡ sink.old }
    ensures rise { Rise meters.old meters.new }
{
    match judge_input::<L, R, S>(work, command, source, meters) {
        Ok(judged) => answer::<L, K>(command, Ok(judged), sink),
        Err(InputFault::Fault(fault)) => answer::<L, K>(command, Err(fault), sink),
        Err(InputFault::Failed) => Outcome::ReadFault,
    }
}

/// Serves the command of a generated trace of so many rounds, whatever is left of a source.
pub(crate) fn serve_generated<R: Gate + Sync, K: Sink>(
    work: &Work<'_, R>,
    number: u32,
    sink: &mut K,
    meters: &mut Meters,
) -> Outcome
    requires split { (1 ≤ work.now.shards) × (work.now.shards ≤ most_shards) }
    requires least { 1 ≤ number }
    requires most { number ≤ most_rounds }
    requires room { HaveRoom meters.old }
    ensures served { (left : Option (List ℕ)) (failed_reads : ℕ)
        → Served text_lines (Command.Gen number)
        (streams left (K.got sink.old) failed_reads (K.faults sink.old))
        (streams left (K.got sink.new) failed_reads (K.faults sink.new))
        meters.old meters.new result }
    ensures no_usage { result ≢ Outcome.Usage }
    ensures no_read_fault { result ≢ Outcome.ReadFault }
    ensures writes { Counts Outcome.WriteFault result (K.faults sink.old) (K.faults sink.new) }
    ensures kept { result ≡ Outcome.NoMemory → sink.new ≡ sink.old }
    ensures rise { Rise meters.old meters.new }
{
    let command = Command::Gen { number };
    let verdict = judge_generated(work, command, number, meters);
    answer::<TextLines, K>(command, verdict, sink)
}
