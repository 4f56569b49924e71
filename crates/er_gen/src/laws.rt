//! Laws of the generated trace. Each is a function that does nothing, whose contract is the law.

ghost use Rattle.std.specs.Prelude.{◌≡◌, ◌≤◌, ◌+◌, ◌*◌, ℕ, length, codes};
ghost use Rattle.er_trace.specs.declared.version.Version.TheVariants.{One};
ghost use Rattle.er_trace.specs.Trace.{text, IsTrace};
ghost use Rattle.er_gen.specs.Generated.{generated, most_rounds};

/// How many records there are.
#[tactic(auto, using(crate::proofs::GeneratedLemmas::generated_length))]
pub fn records_are_counted()
    ensures { (number : ℕ) → length (generated number) ≡ 12 * number + 10 }
{}

/// The records are those of a trace in version 1: each has a spelling, and they are no
/// more than a trace has.
#[tactic(auto, using(crate::proofs::GeneratedLemmas::generated_fits))]
pub fn a_trace_is_generated()
    ensures { (number : ℕ) → number ≤ most_rounds → IsTrace One (generated number) }
{}
