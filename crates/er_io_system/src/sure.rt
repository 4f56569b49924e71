//! A source and a sink whose calls never fail.

ghost use Rattle.std.specs.Prelude.{◌≡◌, ◌+◌, ◌<◌, ◌≤◌, ℕ, min, length, take, drop, Ok, Some, IfOk, OnOk, OnErr};
ghost use Rattle.er_io.specs.Ends.{Gives, Gets, IsSpent, Rose, last_count, no_faults, one_more, untold};

use er_io::{Failed, Sink, Source};
use std::marker::Model;

/// Gives the bytes that it was made with, as many a call as the buffer has room for.
#[derive(Drop)]
pub struct SureSource {
    bytes: Vec<u8>,
    given: usize,
}

impl Model for SureSource {
    ghost use Rattle.std.specs.Prelude.{ℕ, ◌≤◌, List, drop, length};

    ghost Value = { List ℕ };

    ghost view = { λ s. drop s.given s.bytes.items };

    ghost invariant = { λ s. s.given ≤ length s.bytes.items };
}

impl SureSource {
    /// A source of these bytes.
    pub fn new(bytes: Vec<u8>) -> SureSource
        ensures { result ≡ bytes.items }
    {
        SureSource { bytes, given: 0 }
    }
}

impl Source for SureSource {
    ghost left = { λ s. Some s };

    ghost faults = { λ _. no_faults };

    fn read(&mut self, buf: &mut [u8]) -> Result<usize, Failed>
        ensures placed { IfOk result (λ n. n ≤ length buf.new) }
        ensures given { IfOk result (λ n. Gives (Some self.old) (take n buf.new) (Some self.new)) }
        ensures end { IfOk result (λ n. n ≡ 0 → 0 < length buf.new → IsSpent (Some self.new)) }
        ensures kept { OnErr result (Some self.new ≡ Some self.old) }
        ensures cause { OnErr result (Rose no_faults no_faults) }
        ensures raised { OnErr result (no_faults ≡ one_more no_faults) }
        ensures count { no_faults ≤ no_faults }
        ensures stands { OnOk result (no_faults ≡ no_faults) }
        ensures amount { result ≡ Ok (min (length buf.old) (length self.old)) }
        ensures rest { IfOk result (λ n. drop n buf.new ≡ drop n buf.old) }
    {
        let count = buf.len().min(self.bytes.len() - self.given);
        let end = self.given + count;
        buf[..count].copy_from_slice(&self.bytes[self.given..end]);
        self.given = end;
        Ok(count)
    }
}

/// Takes each chunk whole, and keeps how many bytes came, up to the last value of the count.
#[derive(Drop)]
pub struct SureSink {
    count: u64,
}

impl Model for SureSink {
    ghost use Rattle.std.specs.Prelude.{ℕ};

    ghost Value = { ℕ };

    ghost view = { λ s. s.count };
}

impl SureSink {
    /// A sink that no byte came to.
    pub fn new() -> SureSink
        ensures { result ≡ 0 }
    {
        SureSink { count: 0 }
    }

    /// How many bytes came.
    pub fn count(&self) -> u64
        ensures { result ≡ self.now }
    {
        self.count
    }
}

impl Sink for SureSink {
    ghost got = { λ _. untold };

    ghost faults = { λ _. no_faults };

    fn write(&mut self, chunk: &[u8]) -> Result<usize, Failed>
        ensures taken { IfOk result (λ n. n ≤ length chunk.now) }
        ensures got { IfOk result (λ n. Gets untold (take n chunk.now) untold) }
        ensures some { IfOk result (λ n. 0 < length chunk.now → 0 < n) }
        ensures kept { OnErr result (untold ≡ untold) }
        ensures cause { OnErr result (Rose no_faults no_faults) }
        ensures raised { OnErr result (no_faults ≡ one_more no_faults) }
        ensures count { no_faults ≤ no_faults }
        ensures stands { OnOk result (no_faults ≡ no_faults) }
        ensures all { result ≡ Ok (length chunk.now) }
        ensures counted { self.new ≡ min (self.old + length chunk.now) last_count }
    {
        self.count = self.count.saturating_add(chunk.len() as u64);
        Ok(chunk.len())
    }
}
