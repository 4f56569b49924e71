//! Each public call once, against lines from the format's description.

use er_io::Failed;
use er_io_system::MemorySink;
use er_syntax::parse::parse_record;
use er_syntax::print::{print_loc, print_record};
use er_trace::fault::LineFault;
use er_trace::record::{Kind, Loc, Mode, Record};
use er_trace::version::Version;
use std::alloc::Global;

/// Each form that is of each version, and each kind of element and location.
static RECORDS: [&str; 32] = [
    "parse 0 1 plain",
    "parse 0 1 inline",
    "parse 0 1 sync",
    "parse 0 1 defer",
    "parse 0 1 async",
    "parse 0 1 image",
    "parse 0 1 frame 2",
    "exec 1",
    "timer 2",
    "tick 3",
    "dcl 4 0",
    "load 5 0",
    "eload 6 1",
    "fire 7 1 click",
    "wfire 8 0 message",
    "reply 9 4",
    "inline 10 1 focus",
    "run 7 2 11",
    "close 7",
    "back 10",
    "new 0 1 plain",
    "new 0 1 async",
    "new 0 1 image",
    "new 0 1 frame 2",
    "on 11",
    "set 2 0",
    "every 3 4294967295",
    "send 4",
    "r var 0 x%20y",
    "w var 0 %00%25%FF",
    "r elem 0 i",
    "w slot 1 onclick",
];

/// The forms of version 3 alone.
static TASKS: [&str; 6] = [
    "post 1",
    "ask 2",
    "queue 3",
    "message 4",
    "anim 5",
    "job 4294967295",
];

/// Lines that are no record.
static OTHERS: [&str; 32] = [
    "",
    " ",
    "end",
    "Parse 0 1 plain",
    "parse 0 1",
    "parse 0 1 frame",
    "parse 0 1 plain 2",
    "parse 0 1 frame 2 3",
    "parse 0 1 Plain",
    "new 0 1 sync",
    "exec",
    "exec ",
    "exec 1 ",
    " exec 1",
    "exec  1",
    "exec 01",
    "exec 4294967296",
    "set 2",
    "fire 7 1",
    "fire 7 1 %41",
    "r var 0",
    "r attr 0 x",
    "x var 0 x",
    "run 7 2 11 4",
    "w elem 0 %41",
    "w elem 0 a%2f",
    "w elem 0 %",
    "w elem 0",
    "post",
    "job 1 2",
    "anims 1",
    "message x",
];

/// Lets the record go. The proof of that is long, and a caller that goes through this
/// needs none of its own.
fn let_go(_rec: Record) {}

fn let_go_of_location(_loc: Loc) {}

/// Whether this was printed, and no byte more.
fn is_written(printed: Result<(), Failed>, sink: &MemorySink, wanted: &str) -> bool {
    printed.is_ok() && sink.bytes() == wanted.as_bytes()
}

/// Whether the record is printed as this line.
fn is_printed(alloc: Global, rec: &Record, line: &str) -> bool {
    match MemorySink::new(alloc, 100, 3, Vec::new(alloc)) {
        Ok(mut sink) => is_written(print_record(rec, &mut sink), &sink, line),
        Err(_) => false,
    }
}

/// Whether a copy of the record is printed as this line.
fn is_copied(alloc: Global, rec: &Record, line: &str) -> bool {
    match rec.copy() {
        Ok(copied) => {
            let same = is_printed(alloc, &copied, line);
            let_go(copied);
            same
        }
        Err(_) => false,
    }
}

/// Whether the line is a record of that version, for which the test holds.
fn is_record<Test: Fn(&Record) -> bool>(
    alloc: Global,
    version: Version,
    line: &str,
    test: Test,
) -> bool
    requires { Test.IsAlwaysCallable test }
{
    match parse_record(alloc, version, line.as_bytes()) {
        Ok(rec) => {
            let holds = test(&rec);
            let_go(rec);
            holds
        }
        Err(_) => false,
    }
}

fn is_refused(alloc: Global, version: Version, line: &str) -> bool {
    match parse_record(alloc, version, line.as_bytes()) {
        Ok(rec) => {
            let_go(rec);
            false
        }
        Err(fault) => fault == LineFault::BadRecord,
    }
}

#[test]
fn records(rt: HostRuntime) {
    for line in &RECORDS {
        let alloc = rt.alloc();
        let same = is_record(alloc, Version::One, line, |rec| is_copied(alloc, rec, line));
        assert!(rt; same, "{line}");
    }
}

#[test]
fn tasks(rt: HostRuntime) {
    for line in &TASKS {
        let alloc = rt.alloc();
        let same = is_record(
            alloc,
            Version::Three,
            line,
            |rec| is_copied(alloc, rec, line),
        );
        assert!(rt; same, "{line}");
        assert!(rt; is_refused(alloc, Version::One, line), "{line}");
        assert!(rt; is_refused(alloc, Version::Two, line), "{line}");
    }
}

#[test]
fn other_lines(rt: HostRuntime) {
    for line in &OTHERS {
        assert!(rt; is_refused(rt.alloc(), Version::Three, line), "{line}");
    }
}

/// Whether the record writes a variable of this object, of this name.
fn writes(rec: &Record, wanted: u32, bytes: &[u8]) -> bool {
    let Record::Access { mode, loc } = rec else {
        return false;
    };
    match loc {
        Loc::Var(object, name) => *mode == Mode::W && *object == wanted && name.bytes() == bytes,
        _ => false,
    }
}

fn is_made(rec: &Record) -> bool {
    matches!(
        rec,
        Record::Parse {
            doc: 3,
            element: 4,
            kind: Kind::Defer
        }
    )
}

#[test]
fn fields(rt: HostRuntime) {
    assert!(rt; is_record(rt.alloc(), Version::Two, "parse 3 4 defer", is_made));
    let written = is_record(
        rt.alloc(),
        Version::Three,
        "w var 5 a%0A",
        |rec| writes(rec, 5, b"a\n"),
    );
    assert!(rt; written);
}

/// Whether the record is an access, and a copy of its location is printed so.
fn is_at(alloc: Global, rec: &Record, wanted: &str) -> bool {
    let Record::Access { loc, .. } = rec else {
        return false;
    };
    match loc.copy() {
        Ok(copied) => {
            let same = is_printed_location(alloc, &copied, wanted);
            let_go_of_location(copied);
            same
        }
        Err(_) => false,
    }
}

fn is_printed_location(alloc: Global, loc: &Loc, wanted: &str) -> bool {
    match MemorySink::new(alloc, 100, 3, Vec::new(alloc)) {
        Ok(mut sink) => is_written(print_loc(loc, &mut sink), &sink, wanted),
        Err(_) => false,
    }
}

#[test]
fn locations(rt: HostRuntime) {
    for (line, wanted) in [
        ("w elem 0 a%20b", "elem 0 a%20b"),
        ("r slot 7 onclick", "slot 7 onclick"),
    ] {
        let alloc = rt.alloc();
        let same = is_record(alloc, Version::One, line, |rec| is_at(alloc, rec, wanted));
        assert!(rt; same, "{line}");
    }
}
