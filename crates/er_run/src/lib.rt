//! The top call: from the arguments and the bytes of a trace to the text that is due.
#![tactic(auto)]

ghost use Rattle.std.specs.Prelude.{◌≡◌, ◌≢◌, ℕ, map, string_bytes};
ghost use Rattle.er_words.specs.Words.{Asks};
ghost use Rattle.er_run.specs.Meters.{HaveRoom};
ghost use Rattle.er_run.specs.Promise.{IsRun, IsSilent, streams};

use crate::modes::{serve_generated, serve_input};
use crate::outcome::Outcome;
use er_io::{Sink, Source};
use er_shard::Gate;
use er_words::{Asked, Command, WordsFault, read_words};

mod answer;
mod end;
mod findings;
mod host;
mod input;
mod judge;
pub mod laws;
mod meters;
mod modes;
pub mod outcome;
mod session;
pub mod sure;
mod tell;

pub use host::Host;
pub use meters::Meters;

/// Does what the arguments request: reads the trace of the source, at most 4,096 bytes at a time,
/// to its end or to the chunk that decides a refusal. It writes the report of its races, two orders
/// for one of them, why two of its actions are ordered, or the refusal, to the sink; or the summary
/// of a generated trace.
///
/// The arguments are those after the program's own name. `compares` counts the comparisons of
/// candidate pairs, each compared once, and `tests` the comparisons that group the races. As many
/// shards as the arguments request list and group the races, each in a thread if one can be made,
/// and each calls the gate of the host before its first comparison. The answer is the same for any
/// number of shards.
pub fn run<R: Gate + Sync, S: Source, K: Sink>(
    host: &Host<'_, R>,
    words: &[String],
    source: &mut S,
    sink: &mut K,
    meters: &mut Meters,
) -> Outcome
    requires room { HaveRoom meters.old }
    ensures ran { IsRun (map string_bytes words.now)
        (streams (S.left source.old) (K.got sink.old) (S.faults source.old) (K.faults sink.old))
        (streams (S.left source.new) (K.got sink.new) (S.faults source.new) (K.faults sink.new))
        meters.old meters.new result }
    // Refused arguments leave the source as it was, and so does a generated trace, for which no
    // read fails.
    ensures unread { result ≡ Outcome.Usage → source.new ≡ source.old }
    ensures generated { (asked : Asked) (n : ℕ) → Asks (map string_bytes words.now) asked
        → asked.command ≡ Command.Gen n → (source.new ≡ source.old) × (result ≢ Outcome.ReadFault) }
    // Refused arguments, a failed read and a failed allocation leave the sink as it was.
    ensures unwritten { IsSilent result → sink.new ≡ sink.old }
{
    match read_words(host.alloc, words) {
        Ok(asked) => match asked.command {
            Command::Gen { number } => {
                serve_generated(&host.in_shards(asked.shards), number, sink, meters)
            }
            _ => serve_input(
                &host.in_shards(asked.shards),
                asked.command,
                source,
                sink,
                meters,
            ),
        },
        Err(WordsFault::Usage) => Outcome::Usage,
        Err(WordsFault::NoMemory) => Outcome::NoMemory,
    }
}
