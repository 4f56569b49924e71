//! The lengths of all chains.

ghost use Rattle.std.specs.Prelude.{◌≡◌, ◌≤◌, ◌<◌, ◌-◌, ◌^◌, [], length, slice_index, OnOk, OnErr};
ghost use Rattle.std.specs.List.{sum};
ghost use Rattle.er_clocks.specs.Lengths.{one_more};

use er_io::NoMemory;
use std::alloc::Global;
use std::marker::Model;

/// How many members each chain has. Callers see the list of lengths, lowest chain first.
#[derive(Drop)]
pub struct Chains {
    lengths: Vec<u32>,
}

impl Model for Chains {
    ghost use Rattle.std.specs.Prelude.{ℕ, List, ◌<◌, ◌^◌, All};
    ghost use Rattle.std.specs.List.{sum};

    ghost Value = { List ℕ };

    ghost view = { λ c. c.lengths.items };

    ghost invariant = { λ c. (sum c.lengths.items < 2 ^ 32) × All (λ n. 0 < n) c.lengths.items };
}

impl Chains {
    /// No chain yet. It takes no memory.
    pub fn new(alloc: Global) -> Self
        ensures { result ≡ [] }
    {
        Chains {
            lengths: Vec::new(alloc),
        }
    }

    /// How many chains there are.
    #[tactic(auto, using(crate::proofs::Lengths::few_chains))]
    pub fn count(&self) -> u32
        ensures { result ≡ length self.now }
    {
        self.lengths.len() as u32
    }

    /// How many members a chain has.
    pub fn length(&self, chain: u32) -> u32
        requires { chain < length self.now }
        ensures { result ≡ slice_index self.now chain }
    {
        self.lengths[chain as usize]
    }

    /// One more member at the chain's end. At `count` it is the first of a new chain.
    #[tactic(auto, using(crate::proofs::Lengths::lengthens))]
    pub fn append(&mut self, chain: u32) -> Result<(), NoMemory>
        requires chain { chain ≤ length self.old }
        requires room { sum self.old < 2 ^ 32 - 1 }
        ensures appended { OnOk result (self.new ≡ one_more chain self.old) }
        ensures kept { OnErr result (self.new ≡ self.old) }
    {
        let chain = chain as usize;
        if chain < self.lengths.len() {
            self.lengths[chain] += 1;
            return Ok(());
        }
        let Ok(()) = self.lengths.push(1) else {
            return Err(NoMemory);
        };
        Ok(())
    }
}
