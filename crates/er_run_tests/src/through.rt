//! One call of `run` over ends in memory, asked against the text that is due.

use er_io::NoMemory;
use er_io_system::{MemorySink, MemorySource};
use er_run::outcome::Outcome;
use er_run::{Host, Meters, run};
use er_shard::{FreeGate, Gate};
use std::alloc::{AllocError, Global};
use std::thread::Threads;

/// A call: the words of the command with a space between, the input, and how the ends behave.
#[derive(Clone, Copy)]
pub(crate) struct Call<'w, 'i> {
    pub(crate) words: &'w str,
    pub(crate) input: &'i str,
    /// The most bytes that a read gives, at least one.
    pub(crate) chunk: u32,
    /// The read that fails, if one does.
    pub(crate) failing_read: Option<u32>,
    /// The most bytes that a write takes, at least one.
    pub(crate) taken: u32,
    /// The write that fails, if one does.
    pub(crate) failing_write: Option<u32>,
    pub(crate) room: u32,
}

/// A call without words and without input, between ends that never fail.
pub(crate) const SOUND: Call<'static, 'static> = Call {
    words: "",
    input: "",
    chunk: 4096,
    failing_read: None,
    taken: 4096,
    failing_write: None,
    room: 65536,
};

/// A call without words, between ends that never fail.
pub(crate) fn call_of(input: &str) -> Call<'static, '_> {
    Call { input, ..SOUND }
}

/// How much of the text that is due was written.
#[derive(Clone, Copy, PartialEq, Eq)]
pub(crate) enum Written {
    Whole,
    /// So many of its bytes, and not all.
    Front(usize),
    /// Another text.
    Other,
}

/// What came of a call.
#[derive(Clone, Copy)]
pub(crate) struct Done {
    pub(crate) outcome: Outcome,
    /// How many comparisons of pairs were counted.
    pub(crate) compares: u64,
    /// How many comparisons of classes were counted.
    pub(crate) tests: u64,
    pub(crate) written: Written,
    /// How many reads came, and how many writes.
    pub(crate) calls: (u32, u32),
    /// How many of each failed.
    pub(crate) faults: (u64, u64),
}

impl Done {
    /// Whether all that is due was written, and the call ended with this status.
    pub(crate) fn is_whole(&self, status: u8) -> bool {
        self.written == Written::Whole && self.outcome.status() == status
    }

    /// Whether so much was written, by so many reads and writes, of which the one failed that the
    /// status tells.
    pub(crate) fn is(&self, status: u8, written: Written, calls: (u32, u32)) -> bool {
        let faults = (u64::from(status == 4), u64::from(status == 5));
        self.outcome.status() == status
            && self.written == written
            && self.calls == calls
            && self.faults == faults
    }
}

fn written_of(got: &[u8], due: &[u8]) -> Written {
    if got == due {
        Written::Whole
    } else if due.starts_with(got) {
        Written::Front(got.len())
    } else {
        Written::Other
    }
}

/// Words that stand with a space between.
fn words_of(alloc: Global, line: &str) -> Result<Vec<String>, AllocError> {
    let mut words = Vec::new(alloc);
    for word in line.split_whitespace() {
        words.push(String::from_str(alloc, word)?)?;
    }
    Ok(words)
}

/// The numbers of the calls that fail, as a list.
fn failing_of(alloc: Global, failing: Option<u32>) -> Result<Vec<u32>, AllocError> {
    match failing {
        Some(number) => Vec::from_slice(alloc, &[number]),
        None => Ok(Vec::new(alloc)),
    }
}

fn source_of(alloc: Global, call: &Call<'_, '_>) -> Result<MemorySource, AllocError> {
    let input = Vec::from_slice(alloc, call.input.as_bytes())?;
    let failing = failing_of(alloc, call.failing_read)?;
    Ok(MemorySource::new(input, call.chunk.max(1), failing))
}

fn sink_of(alloc: Global, call: &Call<'_, '_>) -> Result<MemorySink, AllocError> {
    let failing = failing_of(alloc, call.failing_write)?;
    match MemorySink::new(alloc, call.room, call.taken.max(1), failing) {
        Ok(sink) => Ok(sink),
        Err(NoMemory) => Err(AllocError),
    }
}

/// With a gate that holds no shard.
pub(crate) fn through<R: Threads + Sync>(
    rt: &R,
    alloc: Global,
    call: &Call<'_, '_>,
    due: &str,
) -> Result<Done, AllocError> {
    through_gate(&FreeGate { rt }, alloc, call, due)
}

pub(crate) fn through_gate<R: Gate + Sync>(
    rt: &R,
    alloc: Global,
    call: &Call<'_, '_>,
    due: &str,
) -> Result<Done, AllocError> {
    let words = words_of(alloc, call.words)?;
    let mut source = source_of(alloc, call)?;
    let mut sink = sink_of(alloc, call)?;
    let host = Host { rt, alloc };
    Ok(between(&host, &words, &mut source, &mut sink, due))
}

/// The call itself.
fn between<R: Gate + Sync>(
    host: &Host<'_, R>,
    words: &[String],
    source: &mut MemorySource,
    sink: &mut MemorySink,
    due: &str,
) -> Done {
    let mut meters = Meters::new();
    let outcome = run(host, words, source, sink, &mut meters);
    Done {
        outcome,
        compares: meters.compares.made(),
        tests: meters.tests.made(),
        written: written_of(sink.bytes(), due.as_bytes()),
        calls: (source.calls(), sink.calls()),
        faults: (source.fault_count(), sink.fault_count()),
    }
}
