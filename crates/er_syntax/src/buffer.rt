//! A buffer of fixed size.

ghost use Rattle.std.specs.Prelude.{◌≡◌, ◌<◌, ◌≤◌, [], Some, length, take, IfOk, OnOk, OnErr};
ghost use Rattle.er_io.specs.Ends.{Gets, Rose, last_count};

use er_io::{Failed, Sink};
use std::marker::Model;

/// How many bytes the buffer holds at most. No line is half as long, so that each write but the
/// last has more than 4,096 bytes.
const ROOM: usize = 8192;

/// Holds bytes in place, and takes no memory. As a sink it fails where it is full.
#[derive(Drop)]
pub struct Buffer {
    bytes: [u8; ROOM],
    count: usize,
}

impl Model for Buffer {
    ghost use Rattle.std.specs.Prelude.{ℕ, ◌≤◌, List, take};
    ghost use Rattle.er_syntax.specs.declared.buffer.TheConstants.{ROOM};

    ghost Value = { List ℕ };

    ghost view = { λ b. take b.count b.bytes };

    ghost invariant = { λ b. b.count ≤ ROOM };
}

impl Buffer {
    /// Nothing is held.
    pub fn new() -> Buffer
        ensures { result ≡ [] }
    {
        Buffer {
            bytes: [0; ROOM],
            count: 0,
        }
    }

    /// How many bytes are held.
    pub fn len(&self) -> usize
        ensures { result ≡ length self.now }
    {
        self.count
    }

    /// The bytes that are held.
    pub fn bytes(&self) -> &[u8]
        ensures { result.now ≡ self.now }
    {
        &self.bytes[..self.count]
    }

    /// Keeps this many of the bytes, from the first on.
    pub fn cut(&mut self, count: usize)
        requires { count ≤ length self.old }
        ensures { self.new ≡ take count self.old }
    {
        self.count = count;
    }
}

impl Sink for Buffer {
    ghost got = { λ b. Some b };

    // Its faults are not counted: the count stands at its end.
    ghost faults = { λ _. last_count };

    fn write(&mut self, chunk: &[u8]) -> Result<usize, Failed>
        ensures taken { IfOk result (λ n. n ≤ length chunk.now) }
        ensures got { IfOk result (λ n. Gets (Some self.old) (take n chunk.now) (Some self.new)) }
        ensures some { IfOk result (λ n. 0 < length chunk.now → 0 < n) }
        ensures kept { OnErr result (Some self.new ≡ Some self.old) }
        ensures cause { OnErr result (Rose last_count last_count) }
        ensures count { last_count ≤ last_count }
        ensures stands { OnOk result (last_count ≡ last_count) }
    {
        let count = chunk.len().min(ROOM - self.count);
        if count == 0 && !chunk.is_empty() {
            return Err(Failed);
        }
        // Many chunks are one space: to store a byte is no call, to copy a slice of one byte is.
        if let [byte] = chunk {
            self.bytes[self.count] = *byte;
            self.count += 1;
            return Ok(1);
        }
        let end = self.count + count;
        self.bytes[self.count..end].copy_from_slice(&chunk[..count]);
        self.count = end;
        Ok(count)
    }
}
