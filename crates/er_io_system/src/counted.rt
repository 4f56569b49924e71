//! A reader and a writer of the standard library that count what they are asked. The adapters can
//! ask their ends in no other way, so what is proved of the counts is proved of the ends. That each
//! call here asks the end once is trusted, and seen by tests.

ghost use Rattle.std.specs.Prelude.{◌≡◌, ◌≤◌, true, false, length, take, IfOk, OnOk, OnErr};
ghost use Rattle.std.specs.Io.KnownBytes.{Keeps, ReadConsumes, WriteAppends};
ghost use Rattle.er_io.specs.Ends.{one_more};

use std::io;
use std::io::{Read, Write};

/// A reader, how often it was asked, and how often it failed.
#[derive(Drop)]
pub struct CountedReader<R> {
    inner: R,
    reads: u64,
    errors: u64,
}

impl<R> CountedReader<R> {
    pub fn new(inner: R) -> CountedReader<R>
        ensures inner { result.inner ≡ inner }
        ensures reads { result.reads ≡ 0 }
        ensures errors { result.errors ≡ 0 }
    {
        CountedReader {
            inner,
            reads: 0,
            errors: 0,
        }
    }
}

impl<R: Read> CountedReader<R> {
    /// Asks the reader, once.
    pub fn read(&mut self, buf: &mut [u8]) -> io::Result<usize>
        ensures placed { IfOk result (λ n. n ≤ length buf.new) }
        ensures bytes { ReadConsumes (R.remaining self.old.inner) (R.remaining self.new.inner)
            result buf.new }
        ensures reads { self.new.reads ≡ one_more self.old.reads }
        ensures count { self.old.errors ≤ self.new.errors }
        ensures stands { OnOk result (self.new.errors ≡ self.old.errors) }
        ensures raised { OnErr result (self.new.errors ≡ one_more self.old.errors) }
    {
        self.reads = self.reads.saturating_add(1);
        let answer = self.inner.read(buf);
        if answer.is_err() {
            self.errors = self.errors.saturating_add(1);
        }
        answer
    }
}

/// A writer, how often it was asked to write and to flush, how often it failed, and whether a write
/// that it took is still to be flushed.
#[derive(Drop)]
pub struct CountedWriter<W> {
    inner: W,
    writes: u64,
    flushes: u64,
    errors: u64,
    pending: bool,
}

impl<W> CountedWriter<W> {
    pub fn new(inner: W) -> CountedWriter<W>
        ensures inner { result.inner ≡ inner }
        ensures writes { result.writes ≡ 0 }
        ensures flushes { result.flushes ≡ 0 }
        ensures errors { result.errors ≡ 0 }
        ensures pending { result.pending ≡ false }
    {
        CountedWriter {
            inner,
            writes: 0,
            flushes: 0,
            errors: 0,
            pending: false,
        }
    }
}

impl<W: Write> CountedWriter<W> {
    /// Asks the writer to take the chunk, once.
    pub fn write(&mut self, chunk: &[u8]) -> io::Result<usize>
        ensures taken { IfOk result (λ n. n ≤ length chunk.now) }
        ensures bytes { WriteAppends (W.contents self.old.inner) (W.contents self.new.inner)
            result chunk.now }
        ensures writes { self.new.writes ≡ one_more self.old.writes }
        ensures flushes { self.new.flushes ≡ self.old.flushes }
        ensures stands { OnOk result (self.new.errors ≡ self.old.errors) }
        ensures raised { OnErr result (self.new.errors ≡ one_more self.old.errors) }
        ensures pending { OnOk result (self.new.pending ≡ true) }
        ensures as_before { OnErr result (self.new.pending ≡ self.old.pending) }
    {
        self.writes = self.writes.saturating_add(1);
        let answer = self.inner.write(chunk);
        if answer.is_err() {
            self.errors = self.errors.saturating_add(1);
        } else {
            self.pending = true;
        }
        answer
    }

    /// Asks the writer to flush, once.
    pub fn flush(&mut self) -> io::Result<()>
        ensures bytes { Keeps (W.contents self.old.inner) (W.contents self.new.inner) }
        ensures writes { self.new.writes ≡ self.old.writes }
        ensures flushes { self.new.flushes ≡ one_more self.old.flushes }
        ensures stands { OnOk result (self.new.errors ≡ self.old.errors) }
        ensures raised { OnErr result (self.new.errors ≡ one_more self.old.errors) }
        ensures pending { OnOk result (self.new.pending ≡ false) }
        ensures as_before { OnErr result (self.new.pending ≡ self.old.pending) }
    {
        self.flushes = self.flushes.saturating_add(1);
        let answer = self.inner.flush();
        if answer.is_err() {
            self.errors = self.errors.saturating_add(1);
        } else {
            self.pending = false;
        }
        answer
    }
}
