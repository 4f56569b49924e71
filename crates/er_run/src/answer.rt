//! Writes the text for an input that was judged, and returns the outcome.

ghost use Rattle.std.specs.Prelude.{◌≡◌, ◌≢◌, ◌≤◌, ℕ, List, Err, IfOk};
ghost use Rattle.er_run.specs.declared.meters.Meters.{Meters};
ghost use Rattle.er_run.specs.Promise.{IsAnswer, IsGiven, IsPartGiven, Compares, Counts, Tests};
ghost use Rattle.er_run.specs.Accepted.{IsJudgedFor, IsJudgement, IsVerdict};

use crate::findings::Judged;
use crate::outcome::Outcome;
use crate::tell::{tell, tell_fault};
use er_io::Sink;
use er_lines::format::Lines;
use er_trace::fault::FeedFault;
use er_words::Command;

/// Writes the command's text for the input that was judged, and returns the outcome.
pub(crate) fn answer<L: Lines, K: Sink>(
    asked: Command,
    verdict: Result<Judged, FeedFault>,
    sink: &mut K,
) -> Outcome
    requires { IfOk verdict IsJudgement }
    ensures answered { (bytes : List ℕ) → IsVerdict L.format asked bytes verdict → IsAnswer result
        → IsGiven L.format asked bytes result (K.got sink.old) (K.got sink.new) }
    ensures counted { (bytes : List ℕ) (from to : Meters) → IsVerdict L.format asked bytes verdict
        → IfOk verdict (IsJudgedFor asked from to)
        → Compares L.format asked bytes result from.compares to.compares
        × Tests L.format asked bytes result from.tests to.tests }
    ensures cut_short { (bytes : List ℕ) → IsVerdict L.format asked bytes verdict
        → result ≡ Outcome.WriteFault
        → IsPartGiven L.format asked bytes (K.got sink.old) (K.got sink.new) }
    ensures no_memory { verdict ≡ Err FeedFault.NoMemory → result ≡ Outcome.NoMemory }
    ensures kept { result ≡ Outcome.NoMemory → sink.new ≡ sink.old }
    ensures no_usage { result ≢ Outcome.Usage }
    ensures no_read_fault { result ≢ Outcome.ReadFault }
    ensures writes { Counts Outcome.WriteFault result (K.faults sink.old) (K.faults sink.new) }
{
    match verdict {
        Ok(judged) => tell(&judged, sink),
        Err(fault) => tell_fault(asked, fault, sink),
    }
}
