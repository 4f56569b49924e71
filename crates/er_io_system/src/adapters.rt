//! A source over a reader of the standard library, and a sink over a writer.

ghost use Rattle.std.specs.Prelude.{◌≡◌, ◌<◌, ◌≤◌, false, length, take, IfOk, IfSome, IfNone, OnSome, OnOk, OnErr};
ghost use Rattle.std.specs.Io.KnownBytes.{Appends, ReadConsumes};
ghost use Rattle.er_io.specs.Ends.{AppendsFront, Gives, Gets, IsSpent, Rose, one_more, untold};
ghost use Rattle.er_io_system.specs.Counted.{FlushedOnce};

use crate::counted::{CountedReader, CountedWriter};
use er_io::{Failed, Sink, Source};
use std::io::{Read, Write};

/// A source over a reader. It does not tell what is still to come.
/// Each error of the reader is a fault, also an interruption, and the reader is not asked again.
#[derive(Drop)]
pub struct FromRead<R> {
    inner: CountedReader<R>,
}

impl<R> FromRead<R> {
    /// A source over this reader.
    pub fn new(inner: R) -> FromRead<R>
        ensures inner { result.inner.inner ≡ inner }
        ensures reads { result.inner.reads ≡ 0 }
        ensures faults { result.inner.errors ≡ 0 }
    {
        FromRead {
            inner: CountedReader::new(inner),
        }
    }
}

impl<R: Read> Source for FromRead<R> {
    ghost left = { λ _. untold };

    ghost faults = { λ s. s.inner.errors };

    fn read(&mut self, buf: &mut [u8]) -> Result<usize, Failed>
        ensures placed { IfOk result (λ n. n ≤ length buf.new) }
        ensures given { IfOk result (λ n. Gives untold (take n buf.new) untold) }
        ensures end { IfOk result (λ n. n ≡ 0 → 0 < length buf.new → IsSpent untold) }
        ensures kept { OnErr result (untold ≡ untold) }
        ensures cause { OnErr result (Rose self.old.inner.errors self.new.inner.errors) }
        ensures raised { OnErr result (self.new.inner.errors ≡ one_more self.old.inner.errors) }
        ensures count { self.old.inner.errors ≤ self.new.inner.errors }
        ensures stands { OnOk result (self.new.inner.errors ≡ self.old.inner.errors) }
        // The reader was asked once, and what it gave is passed on.
        ensures asked { self.new.inner.reads ≡ one_more self.old.inner.reads }
        ensures passed_on { ReadConsumes (R.remaining self.old.inner.inner)
            (R.remaining self.new.inner.inner) result buf.new }
    {
        let Ok(placed) = self.inner.read(buf) else {
            return Err(Failed);
        };
        Ok(placed)
    }
}

/// A sink over a writer, flushed after each write. It does not tell what it took.
/// Each error of the writer is a fault, also an interruption, and so is a write that takes nothing
/// of a chunk that is not empty. The writer is not asked again.
#[derive(Drop)]
pub struct ToWrite<W> {
    inner: CountedWriter<W>,
    faults: u64,
}

impl<W> ToWrite<W> {
    /// A sink over this writer.
    pub fn new(inner: W) -> ToWrite<W>
        ensures inner { result.inner.inner ≡ inner }
        ensures writes { result.inner.writes ≡ 0 }
        ensures flushes { result.inner.flushes ≡ 0 }
        ensures errors { result.inner.errors ≡ 0 }
        ensures faults { result.faults ≡ 0 }
    {
        ToWrite {
            inner: CountedWriter::new(inner),
            faults: 0,
        }
    }
}

impl<W: Write> Sink for ToWrite<W> {
    ghost got = { λ _. untold };

    ghost faults = { λ s. s.faults };

    fn write(&mut self, chunk: &[u8]) -> Result<usize, Failed>
        ensures taken { IfOk result (λ n. n ≤ length chunk.now) }
        ensures got { IfOk result (λ n. Gets untold (take n chunk.now) untold) }
        ensures some { IfOk result (λ n. 0 < length chunk.now → 0 < n) }
        ensures kept { OnErr result (untold ≡ untold) }
        ensures cause { OnErr result (Rose self.old.faults self.new.faults) }
        ensures raised { OnErr result (self.new.faults ≡ one_more self.old.faults) }
        ensures count { self.old.faults ≤ self.new.faults }
        ensures stands { OnOk result (self.new.faults ≡ self.old.faults) }
        // The writer was asked once to write, and once to flush behind that where it did;
        // a failed write is not flushed, and a failed flush not asked again. None of its
        // errors is passed over.
        ensures asked { self.new.inner.writes ≡ one_more self.old.inner.writes }
        ensures flushed { OnOk result (self.new.inner.flushes ≡ one_more self.old.inner.flushes) }
        ensures settled { OnOk result (self.new.inner.pending ≡ false) }
        ensures flushed_once { OnErr result (FlushedOnce self.old.inner.flushes
            self.new.inner.flushes self.new.inner.pending) }
        ensures heard { OnOk result (self.new.inner.errors ≡ self.old.inner.errors) }
        ensures passed_on { IfOk result (λ n. Appends (W.contents self.old.inner.inner)
            (W.contents self.new.inner.inner) (take n chunk.now)) }
        ensures at_most { OnErr result (AppendsFront (W.contents self.old.inner.inner)
            (W.contents self.new.inner.inner) chunk.now) }
    {
        let Some(taken) = write_and_flush(&mut self.inner, chunk) else {
            self.faults = self.faults.saturating_add(1);
            return Err(Failed);
        };
        Ok(taken)
    }
}

/// One write and a flush. Nothing is answered where one of them fails, or nothing is taken of a
/// chunk that is not empty.
fn write_and_flush<W: Write>(writer: &mut CountedWriter<W>, chunk: &[u8]) -> Option<usize>
    ensures taken { IfSome result (λ n. n ≤ length chunk.now) }
    ensures some { IfSome result (λ n. 0 < length chunk.now → 0 < n) }
    ensures asked { writer.new.writes ≡ one_more writer.old.writes }
    ensures flushed { OnSome result (writer.new.flushes ≡ one_more writer.old.flushes) }
    ensures settled { OnSome result (writer.new.pending ≡ false) }
    ensures flushed_once { IfNone result (FlushedOnce writer.old.flushes writer.new.flushes
        writer.new.pending) }
    ensures heard { OnSome result (writer.new.errors ≡ writer.old.errors) }
    ensures appended { IfSome result (λ n. Appends (W.contents writer.old.inner)
        (W.contents writer.new.inner) (take n chunk.now)) }
    ensures at_most { IfNone result (AppendsFront (W.contents writer.old.inner)
        (W.contents writer.new.inner) chunk.now) }
{
    let taken = writer.write(chunk).ok()?;
    if taken == 0 && !chunk.is_empty() {
        return None;
    }
    writer.flush().ok()?;
    Some(taken)
}
