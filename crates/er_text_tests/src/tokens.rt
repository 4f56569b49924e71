//! Each public call once, against values from the format's description.

ghost use Rattle.std.specs.Prelude.{ℕ, List, Option, None};

use er_io::{Failed, Sink};
use er_text::{Cause, Words, put_name, put_number, read_name, read_number, take_line};
use std::test::Fail;

/// A sink that compares what it gets with what is due.
#[derive(Drop)]
struct Due<'a> {
    due: &'a [u8],
    is_wrong: bool,
}

impl<'a> Sink for Due<'a> {
    ghost got = { λ _. None };

    ghost faults = { λ _. 0 };

    fn write(&mut self, chunk: &[u8]) -> Result<usize, Failed> {
        match self.due.strip_prefix(chunk) {
            Some(later) => self.due = later,
            None => self.is_wrong = true,
        }
        Ok(chunk.len())
    }
}

#[test]
fn causes(rt: HostRuntime) {
    assert_eq!(rt; Cause::NoAction.name(), "no-action");
}

#[test]
fn lines(rt: HostRuntime) -> Result<(), Fail> {
    let (line, rest) = take_line(b"end\nmore").ok_or("a line")?;
    assert_eq!(rt; line, b"end".as_slice());
    assert_eq!(rt; rest, b"more".as_slice());
    assert!(rt; take_line(b"end").is_none());
    let mut words = Words::new(b"a  b ");
    assert_eq!(rt; words.next().ok_or("a")?, b"a".as_slice());
    assert_eq!(rt; words.next().ok_or("empty")?, b"".as_slice());
    assert_eq!(rt; words.next().ok_or("b")?, b"b".as_slice());
    assert_eq!(rt; words.next().ok_or("last")?, b"".as_slice());
    assert!(rt; words.next().is_none());
    Ok(())
}

#[test]
fn numbers(rt: HostRuntime) {
    assert_eq!(rt; read_number(b"0"), Ok(0));
    assert_eq!(rt; read_number(b"4294967295"), Ok(4294967295));
    for word in ["", "007", "+1", "4294967296", "1a"] {
        assert!(rt; read_number(word.as_bytes()).is_err(), "{word}");
    }
    let mut sink = Due {
        due: b"18446744073709551615",
        is_wrong: false,
    };
    assert!(rt; put_number(&mut sink, u64::MAX).is_ok());
    assert!(rt; sink.due.is_empty() && !sink.is_wrong);
}

#[test]
fn names(rt: HostRuntime) -> Result<(), Fail> {
    let name = read_name(b"a/%20%FF").map_err(|_| "a name")?;
    assert_eq!(rt; name.len(), 4);
    assert_eq!(rt; name.bytes().map(|byte| byte as u32).max(), Some(255));
    assert!(rt; name.plain().is_none());
    let name = read_name(b"a/").map_err(|_| "a plain name")?;
    assert_eq!(rt; name.plain().ok_or("plain")?, b"a/".as_slice());
    for word in ["", "%41", "%ff", "%2", "a b"] {
        assert!(rt; read_name(word.as_bytes()).is_err(), "{word}");
    }
    let mut sink = Due {
        due: b"a/%20%FF",
        is_wrong: false,
    };
    assert!(rt; put_name(&mut sink, &[b'a', b'/', b' ', 255]).is_ok());
    assert!(rt; sink.due.is_empty() && !sink.is_wrong);
    Ok(())
}
