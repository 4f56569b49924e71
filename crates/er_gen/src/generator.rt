//! The generator.

ghost use Rattle.std.specs.Prelude.{◌≡◌, ◌≤◌, drop, slice_get, IfOk, OnOk, OnErr};
ghost use Rattle.std.specs.Bool.{Decides};
ghost use Rattle.er_gen.specs.Generated.{generated, most_rounds};

use crate::records::record_at;
use er_io::NoMemory;
use er_trace::record::Record;
use std::alloc::Global;
use std::marker::Model;

/// The most rounds of a generated trace.
const MOST_ROUNDS: u32 = 1_500;

/// A generated trace. Callers see the list of the records that are still to come.
#[derive(Drop)]
pub struct Generator {
    alloc: Global,
    rounds: u32,
    given: u32,
}

impl Model for Generator {
    ghost use Rattle.std.specs.Prelude.{List, drop, ◌≤◌};
    ghost use Rattle.er_trace.specs.declared.record.Record.{Record};
    ghost use Rattle.er_gen.specs.Generated.{generated, most_rounds};

    ghost Value = { List Record };

    ghost view = { λ g. drop g.given (generated g.rounds) };

    ghost invariant = { λ g. g.rounds ≤ most_rounds };
}

impl Generator {
    /// Whether there is a generated trace of so many rounds.
    pub fn has_trace(number: u32) -> bool
        ensures { Decides result ((1 ≤ number) × (number ≤ most_rounds)) }
    {
        1 <= number && number <= MOST_ROUNDS
    }

    /// The generated trace of so many rounds.
    pub fn new(alloc: Global, number: u32) -> Generator
        requires least { 1 ≤ number }
        requires most { number ≤ most_rounds }
        ensures { result ≡ generated number }
    {
        Generator {
            alloc,
            rounds: number,
            given: 0,
        }
    }

    /// The next record.
    #[tactic(auto, using(crate::proofs::GeneratedLemmas::left))]
    pub fn next(&mut self) -> Result<Option<Record>, NoMemory>
        ensures given { IfOk result (λ given. given ≡ slice_get self.old 0) }
        ensures later { OnOk result (self.new ≡ drop 1 self.old) }
        ensures unchanged { OnErr result (self.new ≡ self.old) }
    {
        let Some(found) = record_at(self.alloc, self.rounds, self.given)? else {
            return Ok(None);
        };
        self.given += 1;
        Ok(Some(found))
    }
}
