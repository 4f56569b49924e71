//! Inputs that never end. Each is refused, and no chunk of it is read after the one that decides.

ghost use Rattle.er_io.specs.Ends.{untold};

use er_io::{Failed, Source};
use er_io_system::MemorySink;
use er_run::{Host, Meters, run};
use er_shard::FreeGate;
use std::alloc::Global;
use std::thread::Threads;

/// A source that gives a text, and then a line over and over.
#[derive(Clone, Copy)]
struct Endless {
    /// What is left of the text, or of the line.
    left: &'static [u8],
    line: &'static [u8],
    /// The most bytes that a read gives.
    chunk: usize,
    /// How many bytes were given.
    given: u64,
}

impl Endless {
    /// The letter `a` for ever.
    fn letters(chunk: usize) -> Endless {
        Endless {
            left: b"",
            line: b"a",
            chunk,
            given: 0,
        }
    }

    /// A parse step that reads one variable for ever.
    fn accesses(chunk: usize) -> Endless {
        Endless {
            left: b"webtrace 1\nparse 0 1 plain\n",
            line: b"r var 0 x\n",
            chunk,
            given: 0,
        }
    }

    /// The next byte.
    fn next(&mut self) -> u8 {
        if self.left.is_empty() {
            self.left = self.line;
        }
        match self.left.split_first() {
            Some((byte, rest)) => {
                self.left = rest;
                *byte
            }
            None => b'\n',
        }
    }
}

impl Source for Endless {
    ghost left = { λ _. untold };

    ghost faults = { λ _. 0 };

    fn read(&mut self, buf: &mut [u8]) -> Result<usize, Failed> {
        let count = self.chunk.min(buf.len());
        for at in 0..count {
            buf[at] = self.next();
        }
        self.given = self.given.saturating_add(count as u64);
        Ok(count)
    }
}

/// Whether the source is refused with this text.
fn is_refused(rt: &(impl Threads + Sync), alloc: Global, source: &mut Endless, due: &str) -> bool {
    match MemorySink::new(alloc, 1000, 4096, Vec::new(alloc)) {
        Ok(mut sink) => {
            let status = status_between(rt, alloc, source, &mut sink);
            (status == 3) & (sink.bytes() == due.as_bytes())
        }
        Err(_) => false,
    }
}

fn status_between(
    rt: &(impl Threads + Sync),
    alloc: Global,
    source: &mut Endless,
    sink: &mut MemorySink,
) -> u8 {
    let gate = FreeGate { rt };
    let host = Host { rt: &gate, alloc };
    let outcome = run(&host, &[], source, sink, &mut Meters::new());
    outcome.status()
}

/// Below 1,025 letters and the chunk that brings the last. Of the accesses, two lines, 27 bytes
/// together, those that may follow, and one byte more decide.
#[test]
fn lines_and_inputs_without_an_end(rt: HostRuntime) {
    let lines = 27 + 10 * 2_097_150 + 1;
    for (mut source, due, most) in [
        (Endless::letters(1), "refused 1 long-line\n", 1026),
        (Endless::letters(7), "refused 1 long-line\n", 1032),
        (Endless::letters(4096), "refused 1 long-line\n", 5121),
        (
            Endless::accesses(10),
            "refused 2097153 too-many-lines\n",
            lines + 10,
        ),
        (
            Endless::accesses(4096),
            "refused 2097153 too-many-lines\n",
            lines + 4096,
        ),
    ] {
        let refused = is_refused(&rt, rt.alloc(), &mut source, due);
        assert!(rt; refused, "{due}");
        assert!(rt; source.given < most, "{due}");
    }
}
