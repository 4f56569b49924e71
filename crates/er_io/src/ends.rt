//! The two traits of the outside, and what they answer when they fail.

ghost use Rattle.std.specs.Prelude.{◌≡◌, ℕ, ◌<◌, ◌≤◌, List, length, take, Option, OnErr, IfOk, OnOk};
ghost use Rattle.er_io.specs.Ends.{Gives, Gets, IsSpent, Rose, one_more};

use std::alloc::{AllocError, AllocFailed};

/// A read or a write that failed.
#[derive(Clone, Copy, Debug, PartialEq, Eq)]
pub struct Failed;

/// A text that was not written whole, since a write failed.
#[derive(Clone, Copy, Debug, PartialEq, Eq)]
pub struct WriteFault;

impl From<Failed> for WriteFault {
    fn from(_: Failed) -> WriteFault {
        WriteFault
    }
}

/// Memory ran out.
#[derive(Clone, Copy, Debug, PartialEq, Eq)]
pub struct NoMemory;

impl From<AllocError> for NoMemory {
    fn from(_: AllocError) -> NoMemory {
        NoMemory
    }
}

impl<T: Drop> From<AllocFailed<T>> for NoMemory {
    fn from(_: AllocFailed<T>) -> NoMemory {
        NoMemory
    }
}

/// Where bytes come from.
pub trait Source {
    /// The bytes still to come, where the source tells them.
    ghost left: { Self → Option (List ℕ) };
    /// How many reads have failed: each raises it by one, up to its last value, and
    /// nothing else changes it.
    ghost faults: { Self → ℕ };

    /// Fills a front of the buffer, and answers how many bytes it placed.
    /// For a buffer that is not empty, 0 comes only at the end of the input.
    fn read(&mut self, buf: &mut [u8]) -> Result<usize, Failed>
        ensures placed { IfOk result (λ n. n ≤ length buf.new) }
        ensures given { IfOk result (λ n. Gives (left self.old) (take n buf.new) (left self.new)) }
        ensures end { IfOk result (λ n. n ≡ 0 → 0 < length buf.new → IsSpent (left self.new)) }
        ensures kept { OnErr result (left self.new ≡ left self.old) }
        ensures cause { OnErr result (Rose (faults self.old) (faults self.new)) }
        ensures raised { OnErr result (faults self.new ≡ one_more (faults self.old)) }
        ensures count { faults self.old ≤ faults self.new }
        ensures stands { OnOk result (faults self.new ≡ faults self.old) };
}

/// Where bytes go.
pub trait Sink {
    /// The bytes taken so far, where the sink tells them.
    ghost got: { Self → Option (List ℕ) };
    /// How many writes have failed: each raises it by one, up to its last value, and
    /// nothing else changes it.
    ghost faults: { Self → ℕ };

    /// Takes a front of the chunk, and answers its length: at least one byte of a chunk
    /// that is not empty.
    fn write(&mut self, chunk: &[u8]) -> Result<usize, Failed>
        ensures taken { IfOk result (λ n. n ≤ length chunk.now) }
        ensures got { IfOk result (λ n. Gets (got self.old) (take n chunk.now) (got self.new)) }
        ensures some { IfOk result (λ n. 0 < length chunk.now → 0 < n) }
        ensures kept { OnErr result (got self.new ≡ got self.old) }
        ensures cause { OnErr result (Rose (faults self.old) (faults self.new)) }
        ensures raised { OnErr result (faults self.new ≡ one_more (faults self.old)) }
        ensures count { faults self.old ≤ faults self.new }
        ensures stands { OnOk result (faults self.new ≡ faults self.old) };
}
