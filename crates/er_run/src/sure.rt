//! A run with streams that never fail.

ghost use Rattle.std.specs.Prelude.{◌≡◌, ◌⊎◌, ℕ, List, Some, map, string_bytes};
ghost use Rattle.er_words.specs.Words.{Asks};
ghost use Rattle.er_run.specs.Answer.{Answers, format_of};
ghost use Rattle.er_run.specs.Meters.{HaveRoom};
ghost use Rattle.er_run.specs.Promise.{Holds};

use crate::outcome::Outcome;
use crate::{Host, Meters, run};
use er_io_system::{SureSink, SureSource};
use er_shard::Gate;
use er_words::Asked;

/// `run` with streams whose calls never fail: what the command has to analyze is answered, unless
/// an allocation fails.
pub fn run_surely<R: Gate + Sync>(
    host: &Host<'_, R>,
    words: &[String],
    source: &mut SureSource,
    sink: &mut SureSink,
    meters: &mut Meters,
) -> Outcome
    requires room { HaveRoom meters.old }
    ensures { (asked : Asked) → Asks (map string_bytes words.now) asked
        → (bytes : List ℕ) → Holds asked.command (Some source.old) bytes
        → (result ≡ Outcome.NoMemory)
        ⊎ ((due : List ℕ) × Answers (format_of asked.command) asked.command bytes result due) }
{
    run(host, words, source, sink, meters)
}
