//! The adapters over ends that give and take a byte a call, and of which one call fails, also by an
//! interruption: it is a fault, the call is not made again, and the next call goes on
//! where it stood.

use er_io::{Failed, Sink, Source, put_all};
use er_io_system::{FromRead, ToWrite};
use std::io;
use std::io::{ErrorKind, Read, Write};

/// Gives a byte a call, unless its number, from 1, is that of the call that fails.
#[derive(Drop)]
struct FrailReader {
    left: &'static [u8],
    calls: u32,
    failing: u32,
    kind: ErrorKind,
}

impl Read for FrailReader {
    fn read(&mut self, buf: &mut [u8]) -> io::Result<usize> {
        self.calls = self.calls.saturating_add(1);
        if self.calls == self.failing {
            return Err(self.kind.into());
        }
        if buf.is_empty() {
            return Ok(0);
        }
        let Some((byte, rest)) = self.left.split_first() else {
            return Ok(0);
        };
        buf[0] = *byte;
        self.left = rest;
        Ok(1)
    }
}

/// Takes a byte a call, and keeps three. One write fails, or one flush.
#[derive(Drop)]
struct FrailWriter {
    taken: [u8; 3],
    count: usize,
    writes: u32,
    failing_write: u32,
    flushes: u32,
    failing_flush: u32,
    kind: ErrorKind,
}

impl FrailWriter {
    fn new(failing_write: u32, failing_flush: u32, kind: ErrorKind) -> FrailWriter {
        FrailWriter {
            taken: [0; 3],
            count: 0,
            writes: 0,
            failing_write,
            flushes: 0,
            failing_flush,
            kind,
        }
    }
}

impl Write for FrailWriter {
    fn write(&mut self, buf: &[u8]) -> io::Result<usize> {
        self.writes = self.writes.saturating_add(1);
        if self.writes == self.failing_write {
            return Err(self.kind.into());
        }
        if buf.is_empty() || self.count >= self.taken.len() {
            return Ok(0);
        }
        self.taken[self.count] = buf[0];
        self.count += 1;
        Ok(1)
    }

    fn flush(&mut self) -> io::Result<()> {
        self.flushes = self.flushes.saturating_add(1);
        if self.flushes == self.failing_flush {
            return Err(self.kind.into());
        }
        Ok(())
    }
}

/// One read through the bound.
fn read_some<S: Source>(source: &mut S, buf: &mut [u8]) -> Result<usize, Failed> {
    source.read(buf)
}

#[test]
fn a_failed_read_is_not_made_again(rt: HostRuntime) {
    for kind in [ErrorKind::Interrupted, ErrorKind::BrokenPipe] {
        let mut reader = FrailReader {
            left: b"ab",
            calls: 0,
            failing: 2,
            kind,
        };
        let mut source = FromRead::new(&mut reader);
        let mut buf = [0; 3];
        for (answer, held) in [
            (Ok(1), *b"a\0\0"),
            (Err(Failed), *b"a\0\0"),
            (Ok(1), *b"b\0\0"),
            (Ok(0), *b"b\0\0"),
        ] {
            let answered = read_some(&mut source, &mut buf);
            assert_eq!(rt; (answered, buf), (answer, held));
        }
        assert_eq!(rt; reader.calls, 4);
    }
}

/// What came of a chunk: the answer, what the writer keeps, and its calls so far, of both kinds.
type Put = (Result<(), Failed>, [u8; 3], u32, u32);

/// Puts the chunk through an adapter over the writer.
fn put_through(writer: &mut FrailWriter, chunk: &str) -> Put {
    let answered = put_all(&mut ToWrite::new(&mut *writer), chunk.as_bytes());
    (answered, writer.taken, writer.writes, writer.flushes)
}

#[test]
fn a_failed_write_is_not_made_again(rt: HostRuntime) {
    for kind in [ErrorKind::Interrupted, ErrorKind::BrokenPipe] {
        let mut writer = FrailWriter::new(2, 0, kind);
        for (chunk, due) in [
            ("abc", (Err(Failed), *b"a\0\0", 2, 1)),
            ("bc", (Ok(()), *b"abc", 4, 3)),
        ] {
            let put = put_through(&mut writer, chunk);
            assert_eq!(rt; put, due);
        }
    }
}

#[test]
fn nothing_is_written_after_a_failed_flush(rt: HostRuntime) {
    for kind in [ErrorKind::Interrupted, ErrorKind::BrokenPipe] {
        let mut writer = FrailWriter::new(0, 2, kind);
        let put = put_through(&mut writer, "abc");
        assert_eq!(rt; put, (Err(Failed), *b"ab\0", 2, 2));
    }
}
