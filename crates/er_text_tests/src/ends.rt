//! Each public call once, with ample memory, and what no clause says.

use er_io::{Failed, Sink, Source, put_all};
use er_io_system::{FromRead, MemorySink, MemorySource, SureSink, SureSource, ToWrite};
use std::alloc::Global;
use std::io;
use std::io::{ErrorKind, Read, Write};
use std::test::Fail;

/// One read through the bound.
fn read_some<S: Source>(source: &mut S, buf: &mut [u8]) -> Result<usize, Failed> {
    source.read(buf)
}

/// A reader and writer that answers 0, or an error where it is told to.
#[derive(Drop)]
struct Fake {
    fails: bool,
    fails_to_flush: bool,
}

impl Read for Fake {
    fn read(&mut self, _buf: &mut [u8]) -> io::Result<usize> {
        if self.fails {
            return Err(ErrorKind::BrokenPipe.into());
        }
        Ok(0)
    }
}

impl Write for Fake {
    fn write(&mut self, buf: &[u8]) -> io::Result<usize> {
        if self.fails {
            return Err(ErrorKind::BrokenPipe.into());
        }
        if self.fails_to_flush {
            return Ok(buf.len());
        }
        Ok(0)
    }

    fn flush(&mut self) -> io::Result<()> {
        if self.fails_to_flush {
            return Err(ErrorKind::BrokenPipe.into());
        }
        Ok(())
    }
}

/// A source of five bytes that gives two a call, and whose second call fails.
fn frail_source(alloc: Global) -> Result<MemorySource, Fail> {
    let failing = Vec::from_slice(alloc, &[2])?;
    match Vec::from_slice(alloc, b"abcde") {
        Ok(bytes) => Ok(MemorySource::new(bytes, 2, failing)),
        Err(_) => Err("memory".into()),
    }
}

#[test]
fn a_source_in_memory_gives_its_bytes(rt: HostRuntime) -> Result<(), Fail> {
    let mut source = frail_source(rt.alloc())?;
    let mut buf = [0; 3];
    for (answer, held, faults) in [
        (Ok(2), *b"ab\0", 0),
        (Err(Failed), *b"ab\0", 1),
        (Ok(2), *b"cd\0", 1),
        (Ok(1), *b"ed\0", 1),
        (Ok(0), *b"ed\0", 1),
    ] {
        let answered = read_some(&mut source, &mut buf);
        assert_eq!(rt;
            (answered, buf, source.fault_count()),
            (answer, held, faults)
        );
    }
    assert_eq!(rt; source.calls(), 5);
    Ok(())
}

/// A sink with room for six bytes that takes two a call, and of which one call fails.
fn frail_sink(alloc: Global, failing: u32) -> Result<MemorySink, Fail> {
    let failing = Vec::from_slice(alloc, &[failing])?;
    Ok(MemorySink::new(alloc, 6, 2, failing)?)
}

#[test]
fn a_chunk_is_put_whole(rt: HostRuntime) -> Result<(), Fail> {
    let mut sink = frail_sink(rt.alloc(), 5)?;
    assert_eq!(rt; put_all(&mut sink, b"abcde"), Ok(()));
    // the fifth call brings nothing, so it does not fail; after it no room is left
    for (chunk, answer, faults) in [("fg", Ok(1), 0), ("", Ok(0), 0), ("g", Err(Failed), 1)] {
        let answered = sink.write(chunk.as_bytes());
        assert_eq!(rt; (answered, sink.fault_count()), (answer, faults));
    }
    assert_eq!(rt; sink.calls(), 6);
    assert_eq!(rt; sink.bytes(), b"abcdef".as_slice());
    Ok(())
}

#[test]
fn a_chunk_is_put_in_part(rt: HostRuntime) -> Result<(), Fail> {
    let mut sink = frail_sink(rt.alloc(), 2)?;
    // what is still due can be put later, until the room is used up
    for (chunk, held, calls, faults) in [("abcde", "ab", 2, 1), ("cdefg", "abcdef", 5, 2)] {
        let answered = put_all(&mut sink, chunk.as_bytes());
        assert_eq!(rt;
            (answered, sink.calls(), sink.fault_count()),
            (Err(Failed), calls, faults)
        );
        assert_eq!(rt; sink.bytes(), held.as_bytes());
    }
    Ok(())
}

/// Whichever of the three calls for a chunk of six bytes fails, it is the last, and the next one is
/// asked as any other.
#[test]
fn each_call_of_a_sink_fails(rt: HostRuntime) -> Result<(), Fail> {
    for (failing, held, next) in [(1, "", "xy"), (2, "ab", "abxy"), (3, "abcd", "abcdxy")] {
        let mut sink = frail_sink(rt.alloc(), failing)?;
        assert_eq!(rt; put_all(&mut sink, b"abcdef"), Err(Failed));
        assert_eq!(rt; (sink.calls(), sink.fault_count()), (failing, 1));
        assert_eq!(rt; sink.bytes(), held.as_bytes());
        assert_eq!(rt; sink.write(b"xyz"), Ok(2));
        assert_eq!(rt;
            (sink.calls(), sink.fault_count()),
            (failing.saturating_add(1), 1)
        );
        assert_eq!(rt; sink.bytes(), next.as_bytes());
    }
    Ok(())
}

#[test]
fn a_reader_is_a_source(rt: HostRuntime) {
    let mut buf = [0; 3];
    let mut source = FromRead::new(b"abcd".as_slice());
    for (answer, held) in [(Ok(3), *b"abc"), (Ok(1), *b"dbc"), (Ok(0), *b"dbc")] {
        let answered = read_some(&mut source, &mut buf);
        assert_eq!(rt; (answered, buf), (answer, held));
    }
}

#[test]
fn a_broken_reader_is_a_failing_source(rt: HostRuntime) {
    let mut broken = FromRead::new(Fake {
        fails: true,
        fails_to_flush: false,
    });
    assert_eq!(rt; read_some(&mut broken, &mut [0; 3]), Err(Failed));
}

#[test]
fn a_writer_is_a_sink(rt: HostRuntime) {
    let mut taken = Vec::new(rt.alloc());
    let mut sink = ToWrite::new(&mut taken);
    assert_eq!(rt; put_all(&mut sink, b"abc"), Ok(()));
    assert_eq!(rt; taken.as_slice(), b"abc".as_slice());
}

#[test]
fn a_broken_writer_is_a_failing_sink(rt: HostRuntime) {
    for (fails, fails_to_flush) in [(true, false), (false, true), (false, false)] {
        let mut broken = ToWrite::new(Fake {
            fails,
            fails_to_flush,
        });
        assert_eq!(rt; put_all(&mut broken, b"abc"), Err(Failed));
    }
}

#[test]
fn nothing_is_put_into_a_full_writer(rt: HostRuntime) {
    let mut full = ToWrite::new(Fake {
        fails: false,
        fails_to_flush: false,
    });
    assert_eq!(rt; put_all(&mut full, b""), Ok(()));
    assert_eq!(rt; full.write(b""), Ok(0));
}

#[test]
fn a_sure_source_gives_all(rt: HostRuntime) -> Result<(), Fail> {
    let mut source = SureSource::new(Vec::from_slice(rt.alloc(), b"abcd")?);
    let mut buf = [0; 3];
    for (answer, held) in [(Ok(3), *b"abc"), (Ok(1), *b"dbc"), (Ok(0), *b"dbc")] {
        let answered = read_some(&mut source, &mut buf);
        assert_eq!(rt; (answered, buf), (answer, held));
    }
    Ok(())
}

#[test]
fn a_sure_sink_takes_all(rt: HostRuntime) {
    let mut sink = SureSink::new();
    assert_eq!(rt; put_all(&mut sink, b"abc"), Ok(()));
    assert_eq!(rt; sink.count(), 3);
}
