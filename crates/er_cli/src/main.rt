//! The program: standard input, standard output and the arguments, and what `run` makes of them.
#![tactic(auto)]

ghost use Rattle.std.specs.Prelude.{◌≡◌, ◌≢◌, drop, map, string_bytes, IfErr, IfOk};
ghost use Rattle.std.specs.IoError.{error_kind};
ghost use Rattle.std.specs.Process.{exit_status};
ghost use Rattle.std.specs.Vec.Iter.{into_iter_items};
ghost use Rattle.er_run.specs.Status.{line_of, status_of};
ghost use Rattle.er_run.specs.Promise.{streams};
ghost use Rattle.er_cli.specs.Ended.{EndsWith, LacksMemory, LacksWords, line_printed};

mod printed;

use er_io::{Sink, Source};
use er_io_system::{FromRead, ToWrite};
use er_run::outcome::Outcome;
use er_run::{Host, Meters, run};
use er_shard::FreeGate;
use printed::{Printed, print};
use std::alloc::{AllocError, Global};
use std::env::{self, Args};
use std::io::{self, ErrorKind};
use std::process::ExitCode;
use std::thread::Threads;

/// The status if the system did not pass the arguments. No outcome has it.
const NO_WORDS: u8 = 7;

fn main(rt: HostRuntime) -> ExitCode {
    let mut source = FromRead::new(rt.stdin());
    let mut sink = ToWrite::new(rt.stdout());
    start(&rt, rt.alloc(), env::args(&rt), &mut source, &mut sink).code
}

/// How the program ends: its status, and the line that was printed on standard error.
#[derive(Drop)]
struct Ending {
    code: ExitCode,
    line: Option<Printed>,
}

/// Does what the system's arguments request with these two streams, and shows how that ended.
fn start<R: Threads + Sync + Eprint, S: Source, K: Sink>(
    rt: &R,
    alloc: Global,
    args: io::Result<Args>,
    source: &mut S,
    sink: &mut K,
) -> Ending
    ensures ran { IfOk args (λ all. EndsWith (map string_bytes (drop 1 (into_iter_items all)))
        (streams (S.left source.old) (K.got sink.old) (S.faults source.old) (K.faults sink.old))
        (streams (S.left source.new) (K.got sink.new) (S.faults source.new) (K.faults sink.new))
        (line_printed result.line) (exit_status result.code)) }
    ensures no_words { IfErr args (λ error. error_kind error ≢ ErrorKind.OutOfMemory
        → LacksWords (line_printed result.line) (exit_status result.code)) }
    ensures no_memory { IfErr args (λ error. error_kind error ≡ ErrorKind.OutOfMemory
        → LacksMemory (line_printed result.line) (exit_status result.code)) }
    ensures untouched { IfErr args (λ _. (source.new ≡ source.old) × (sink.new ≡ sink.old)) }
{
    match args {
        Ok(all) => begin(rt, alloc, all, source, sink),
        Err(error) => refuse(rt, error),
    }
}

/// Does what the arguments after the program's own name request.
fn begin<R: Threads + Sync + Eprint, S: Source, K: Sink>(
    rt: &R,
    alloc: Global,
    args: Args,
    source: &mut S,
    sink: &mut K,
) -> Ending
    ensures { EndsWith (map string_bytes (drop 1 (into_iter_items args)))
        (streams (S.left source.old) (K.got sink.old) (S.faults source.old) (K.faults sink.old))
        (streams (S.left source.new) (K.got sink.new) (S.faults source.new) (K.faults sink.new))
        (line_printed result.line) (exit_status result.code) }
{
    let Ok(words) = words_of(alloc, args) else {
        return finish(rt, Outcome::NoMemory);
    };
    serve(rt, alloc, words.as_slice(), source, sink)
}

/// The arguments after the program's own name.
fn words_of(alloc: Global, args: Args) -> Result<Vec<String>, AllocError>
    ensures { IfOk result (λ words. words.items ≡ drop 1 (into_iter_items args)) }
{
    args.skip(1).collect(alloc)
}

/// Does what these arguments request.
fn serve<R: Threads + Sync + Eprint, S: Source, K: Sink>(
    rt: &R,
    alloc: Global,
    words: &[String],
    source: &mut S,
    sink: &mut K,
) -> Ending
    ensures { EndsWith (map string_bytes words.now)
        (streams (S.left source.old) (K.got sink.old) (S.faults source.old) (K.faults sink.old))
        (streams (S.left source.new) (K.got sink.new) (S.faults source.new) (K.faults sink.new))
        (line_printed result.line) (exit_status result.code) }
{
    let gate = FreeGate { rt };
    let host = Host { rt: &gate, alloc };
    let mut meters = Meters::new();
    let outcome = run(&host, words, source, sink, &mut meters);
    finish(rt, outcome)
}

/// Prints the line of the outcome, if it has one, and returns it with the status.
fn finish(rt: &impl Eprint, outcome: Outcome) -> Ending
    ensures status { exit_status result.code ≡ status_of outcome }
    ensures line { line_printed result.line ≡ line_of outcome }
{
    let code = ExitCode::from(outcome.status());
    match outcome.line() {
        Some(text) => Ending {
            code,
            line: Some(print(rt, text)),
        },
        None => Ending { code, line: None },
    }
}

/// Shows that the system did not pass the arguments.
fn refuse(rt: &impl Eprint, error: io::Error) -> Ending
    ensures no_words { error_kind error ≢ ErrorKind.OutOfMemory
        → LacksWords (line_printed result.line) (exit_status result.code) }
    ensures no_memory { error_kind error ≡ ErrorKind.OutOfMemory
        → LacksMemory (line_printed result.line) (exit_status result.code) }
{
    if error.kind() == ErrorKind::OutOfMemory {
        return finish(rt, Outcome::NoMemory);
    }
    Ending {
        code: ExitCode::from(NO_WORDS),
        line: Some(print(rt, "er_cli: arguments could not be read")),
    }
}
