//! Bytes in memory, as a sink.

ghost use Rattle.std.specs.Prelude.{◌≡◌, ◌<◌, ◌≤◌, Some, length, take, IfOk, OnOk, OnErr};
ghost use Rattle.er_io.specs.Ends.{Gets, Rose, last_count};

use er_io::{Failed, Sink};

/// Bytes in memory. As a sink it fails where memory runs out.
#[derive(Drop)]
pub struct Letters {
    pub bytes: Vec<u8>,
}

impl Sink for Letters {
    ghost got = { λ letters. Some letters.bytes.items };

    // Its faults are not counted: the count stands at its end.
    ghost faults = { λ _. last_count };

    fn write(&mut self, chunk: &[u8]) -> Result<usize, Failed>
        ensures taken { IfOk result (λ n. n ≤ length chunk.now) }
        ensures got { IfOk result (λ n. Gets (Some self.old.bytes.items) (take n chunk.now)
            (Some self.new.bytes.items)) }
        ensures some { IfOk result (λ n. 0 < length chunk.now → 0 < n) }
        ensures kept { OnErr result (Some self.new.bytes.items ≡ Some self.old.bytes.items) }
        ensures cause { OnErr result (Rose last_count last_count) }
        ensures count { last_count ≤ last_count }
        ensures stands { OnOk result (last_count ≡ last_count) }
    {
        if let Err(_) = self.bytes.extend_from_slice(chunk) {
            return Err(Failed);
        }
        Ok(chunk.len())
    }
}
