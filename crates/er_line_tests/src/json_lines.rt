//! Lines of JSON, and traces of them.

use crate::feeds::{
    Mark, Row, is_long_line_refused, is_read_in_bytes, of_row, stays_refused, tells_marks,
    version_of, wrong_cut,
};
use er_io_system::MemorySink;
use er_jsonl::{JsonLines, parse_json_line};
use er_lines::format::Lines;
use er_syntax::print::print_record;
use er_text::Cause;
use er_trace::fault::LineFault;
use er_trace::record::Record;
use er_trace::version::Version;
use std::alloc::{AllocError, Global};

/// Lines, and the line of a trace with the same record.
static RECORDS: [(&str, &str); 43] = [
    ("[\"parse\",0,1,\"plain\"]", "parse 0 1 plain"),
    ("[\"parse\",0,1,\"inline\"]", "parse 0 1 inline"),
    ("[\"parse\",0,1,\"sync\"]", "parse 0 1 sync"),
    ("[\"parse\",0,1,\"defer\"]", "parse 0 1 defer"),
    ("[\"parse\",0,1,\"async\"]", "parse 0 1 async"),
    ("[\"parse\",0,1,\"image\"]", "parse 0 1 image"),
    ("[\"parse\",0,1,\"frame\",2]", "parse 0 1 frame 2"),
    ("[\"exec\",1]", "exec 1"),
    ("[\"timer\",2]", "timer 2"),
    ("[\"tick\",3]", "tick 3"),
    ("[\"dcl\",4,0]", "dcl 4 0"),
    ("[\"load\",5,0]", "load 5 0"),
    ("[\"eload\",6,1]", "eload 6 1"),
    ("[\"fire\",7,1,\"click\"]", "fire 7 1 click"),
    ("[\"wfire\",8,0,\"message\"]", "wfire 8 0 message"),
    ("[\"reply\",9,4]", "reply 9 4"),
    ("[\"inline\",10,1,\"focus\"]", "inline 10 1 focus"),
    ("[\"run\",7,2,11]", "run 7 2 11"),
    ("[\"close\",7]", "close 7"),
    ("[\"back\",10]", "back 10"),
    ("[\"new\",0,1,\"plain\"]", "new 0 1 plain"),
    ("[\"new\",0,1,\"async\"]", "new 0 1 async"),
    ("[\"new\",0,1,\"image\"]", "new 0 1 image"),
    ("[\"new\",0,1,\"frame\",2]", "new 0 1 frame 2"),
    ("[\"on\",11]", "on 11"),
    ("[\"set\",2,0]", "set 2 0"),
    ("[\"every\",3,4294967295]", "every 3 4294967295"),
    ("[\"send\",4]", "send 4"),
    ("[\"r\",\"var\",0,\"x\"]", "r var 0 x"),
    ("[\"w\",\"elem\",0,\"i\"]", "w elem 0 i"),
    ("[\"w\",\"slot\",1,\"onclick\"]", "w slot 1 onclick"),
    // Spaces and escapes are free, and so is the CR of a line that ends in CR LF.
    (" [ \"r\" , \"var\" ,\t0 , \"x\" ] ", "r var 0 x"),
    ("[\"exec\",1]\r", "exec 1"),
    ("[\"\\u0072\",\"v\\u0061r\",0,\"x\"]", "r var 0 x"),
    ("[\"r\",\"var\",0,\"a\\u0020b\"]", "r var 0 a%20b"),
    ("[\"r\",\"var\",0,\"a b\"]", "r var 0 a%20b"),
    ("[\"r\",\"var\",0,\"%\\/\\\"\\\\\"]", "r var 0 %25/\"\\"),
    ("[\"r\",\"var\",0,\"\\u0000\\n\"]", "r var 0 %00%0A"),
    (
        "[\"r\",\"var\",0,\"\\ud83d\\ude00\"]",
        "r var 0 %F0%9F%98%80",
    ),
    ("[\"r\",\"var\",0,\"\u{e9}\"]", "r var 0 %C3%A9"),
    ("[\"r\",\"var\",0,\"7\"]", "r var 0 7"),
    ("[\"fire\",0,0,\"r var 0 x\"]", "fire 0 0 r%20var%200%20x"),
    ("[\"r\",\"var\",0,\"end\"]", "r var 0 end"),
];

/// Lines that spell no record.
static OTHERS: [&str; 52] = [
    "",
    " ",
    "null",
    "[]",
    "{}",
    "exec 1",
    "\"exec\"",
    "[\"end\"]",
    "[\"webtrace\",1]",
    // Version 3 is of lines of text alone.
    "[\"post\",1]",
    "[\"job\",1]",
    "[\"exec\"]",
    "[\"exec\",1,2]",
    "[\"exec\",\"1\"]",
    "[\"exec 1\"]",
    "[\"exec\",1] 1",
    "[\"exec\",1],",
    "[\"exec\",1]]",
    "[\"exec\",1",
    "[\"exec\",1,]",
    "[[\"exec\",1]]",
    "[\"exec\",[1]]",
    "{\"exec\":1}",
    "[\"exec\",{\"a\":1,\"a\":1}]",
    "[\"exec\",null]",
    "[\"exec\",true]",
    "[1,\"exec\"]",
    "[\"Exec\",1]",
    "[\"exec\\u0000\",1]",
    "['exec',1]",
    "\u{feff}[\"exec\",1]",
    // A number is a whole one below 2^32, with no point and no exponent.
    "[\"set\",1,7.0]",
    "[\"set\",1,1e0]",
    "[\"set\",1,-0]",
    "[\"set\",1,-1]",
    "[\"set\",1,+1]",
    "[\"set\",1,01]",
    "[\"set\",1,4294967296]",
    "[\"set\",1,18446744073709551615]",
    "[\"set\",1,18446744073709551616]",
    "[\"set\",1,1e400]",
    // A string is no number, and a number is no string.
    "[\"set\",\"1\",\"7\"]",
    "[\"r\",\"var\",\"0\",\"x\"]",
    "[\"r\",\"var\",0,7]",
    "[\"parse\",0,1,0]",
    "[\"r\",\"var\",0,\"\"]",
    "[\"r\",\"var\",0,\"x\",\"y\"]",
    "[\"r\",\"var\",0,\"\\ud83d\"]",
    "[\"r\",\"var\",0,\"\\ude00\\ud83d\"]",
    "[\"r\",\"var\",0,\"\\x41\"]",
    "[\"r\",\"var\",0,\"a\tb\"]",
    "[\"post\",1]",
];

/// Lets the record go. The proof of that is long, and a caller that goes through this
/// needs none of its own.
fn let_go(_rec: Record) {}

/// Whether the record is printed as this line of text.
fn is_printed(alloc: Global, rec: &Record, text: &str) -> bool {
    match MemorySink::new(alloc, 1000, 1000, Vec::new(alloc)) {
        Ok(mut sink) => print_record(rec, &mut sink).is_ok() && sink.bytes() == text.as_bytes(),
        Err(_) => false,
    }
}

/// Whether the line spells the record of that line of text.
fn reads_as(alloc: Global, line: &str, text: &str) -> bool {
    match parse_json_line(alloc, line.as_bytes()) {
        Ok(rec) => {
            let same = is_printed(alloc, &rec, text);
            let_go(rec);
            same
        }
        Err(_) => false,
    }
}

/// Why the line spells no record, where it spells none.
fn fault_of(alloc: Global, line: &[u8]) -> Option<LineFault> {
    match parse_json_line(alloc, line) {
        Ok(rec) => {
            let_go(rec);
            None
        }
        Err(fault) => Some(fault),
    }
}

fn is_refused(alloc: Global, line: &[u8]) -> bool {
    fault_of(alloc, line) == Some(LineFault::BadRecord)
}

#[test]
fn records(rt: HostRuntime) {
    for (line, text) in &RECORDS {
        assert!(rt; reads_as(rt.alloc(), line, text), "{line}");
    }
}

#[test]
fn other_lines(rt: HostRuntime) {
    for line in &OTHERS {
        assert!(rt; is_refused(rt.alloc(), line.as_bytes()), "{line}");
    }
}

#[test]
fn bytes_that_are_no_text(rt: HostRuntime) {
    for line in [
        b"[\"r\",\"var\",0,\"\xff\"]".as_slice(),
        b"[\"r\",\"var\",0,\"\xc3\"]",
        b"[\"r\",\"var\",0,\"\xed\xa0\xbd\xed\xb8\x80\"]",
        b"[\"exec\",1]\xff",
    ] {
        assert!(rt; is_refused(rt.alloc(), line));
    }
}

/// Bytes, and how many of them stand behind the access that is read at their front.
static FRONTS: [(&str, Option<usize>); 20] = [
    ("[\"r\",\"var\",0,\"x\"]\n", Some(0)),
    ("[\"w\",\"elem\",4294967295,\"i\"]\n[", Some(1)),
    ("[\"r\", \"slot\", 10, \"on click\"]\nrest", Some(4)),
    ("[\"w\",\"var\",7,\"a%~\"]\n\n", Some(1)),
    // A name of 30 bytes, and one of 31.
    (
        "[\"r\",\"var\",0,\"abcdefghijabcdefghijabcdefghij\"]\n",
        Some(0),
    ),
    (
        "[\"r\",\"var\",0,\"abcdefghijabcdefghijabcdefghijk\"]\n",
        None,
    ),
    ("[\"r\",\"var\",0,\"x\"]", None),
    ("[\"r\",\"var\",0,\"x\"]\r\n", None),
    ("[\"r\",\"var\",0,\"x", None),
    ("[\"r\",\"var\",0", None),
    ("[\"r\"", None),
    ("", None),
    ("[\"r\", \"var\",0,\"x\"]\n", None),
    ("[\"r\",\"var\",00,\"x\"]\n", None),
    ("[\"r\",\"var\",4294967296,\"x\"]\n", None),
    ("[\"r\",\"var\",0,\"\"]\n", None),
    ("[\"r\",\"var\",0,\"a\\\\b\"]\n", None),
    ("[\"r\",\"var\",0,\"\u{e9}\"]\n", None),
    ("[\"r\",\"set\",0,\"x\"]\n", None),
    ("[\"set\",1,10]\n", None),
];

/// How many bytes stand behind the access that is read at the front.
fn left_of(alloc: Global, bytes: &str) -> Option<usize> {
    match JsonLines::front(alloc, Version::One, bytes.as_bytes()) {
        Some((rec, left)) => {
            let_go(rec);
            Some(left.len())
        }
        None => None,
    }
}

#[test]
fn fronts(rt: HostRuntime) {
    for (bytes, left) in &FRONTS {
        assert_eq!(rt; left_of(rt.alloc(), bytes), *left, "{bytes}");
    }
}

/// Why an access of a name of so many letters is no record, where it is none.
fn fault_of_name(alloc: Global, letters: usize) -> Result<Option<LineFault>, AllocError> {
    let mut line = Vec::from_slice(alloc, b"[\"r\",\"var\",0,\"")?;
    line.resize(line.len().saturating_add(letters), b'a')?;
    line.extend_from_slice(b"\"]")?;
    Ok(fault_of(alloc, line.as_slice()))
}

#[test]
fn names_at_the_limit(rt: HostRuntime) {
    for (letters, fault) in [(255, None), (256, Some(LineFault::BadRecord))] {
        assert!(rt;
            fault_of_name(rt.alloc(), letters) == Ok(fault),
            "{letters}"
        );
    }
}

/// Whether so many brackets, opened and closed, are no record.
fn are_brackets_refused(alloc: Global, depth: usize) -> Result<bool, AllocError> {
    let mut line = Vec::new(alloc);
    line.resize(depth, b'[')?;
    line.resize(depth.saturating_mul(2), b']')?;
    Ok(is_refused(alloc, line.as_slice()))
}

#[test]
fn deep_lines(rt: HostRuntime) {
    for depth in [1, 126, 127, 128, 129, 2048] {
        assert!(rt;
            are_brackets_refused(rt.alloc(), depth) == Ok(true),
            "{depth}"
        );
    }
}

/// Traces, the lines of the records that come of each, and the line that is refused.
static ROWS: [Row; 23] = [
    ("", "", Some((1, Cause::NoEnd))),
    ("[\"webtrace\",1]", "", Some((1, Cause::NoEnd))),
    ("[\"webtrace\",1]\n", "", Some((2, Cause::NoEnd))),
    ("[\"webtrace\",2]\n[\"end\"]\n", "", None),
    (
        "[\"webtrace\",3]\n[\"end\"]\n",
        "",
        Some((1, Cause::BadHeader)),
    ),
    ("[\"webtrace\"]\n", "", Some((1, Cause::BadHeader))),
    ("[\"webtrace\",1,1]\n", "", Some((1, Cause::BadHeader))),
    ("[\"webtrace\",\"1\"]\n", "", Some((1, Cause::BadHeader))),
    ("[\"webtrace\",1.0]\n", "", Some((1, Cause::BadHeader))),
    ("webtrace 1\n", "", Some((1, Cause::BadHeader))),
    ("\n", "", Some((1, Cause::BadHeader))),
    ("[\"webtrace\",1]\n[\"end\"]\n", "", None),
    (" [ \"web\\u0074race\" , 1 ]\r\n[ \"end\" ]\r\n", "", None),
    ("[\"webtrace\",1]\n[\"end\"]", "", Some((2, Cause::NoEnd))),
    (
        "[\"webtrace\",1]\n[\"end\"]\n ",
        "",
        Some((3, Cause::AfterEnd)),
    ),
    (
        "[\"webtrace\",1]\n[\"end\"]\n[\"end\"]\n",
        "",
        Some((3, Cause::AfterEnd)),
    ),
    ("[\"webtrace\",1]\nend\n", "", Some((2, Cause::BadRecord))),
    (
        "[\"webtrace\",1]\n[\"webtrace\",1]\n",
        "",
        Some((2, Cause::BadRecord)),
    ),
    (
        "[\"webtrace\",1]\n[\"end\",1]\n",
        "",
        Some((2, Cause::BadRecord)),
    ),
    (
        "[\"webtrace\",1]\n[\"parse\",0,1,\"inline\"]\n[\"exec\",1]\n[\"end\"]\n",
        "parse 0 1 inline\nexec 1\n",
        None,
    ),
    (
        "[\"webtrace\",1]\n[ \"r\", \"var\", 0, \"x y\" ]\n[\"w\",\"elem\",3,\"z\"]\n[\"r\"",
        "r var 0 x%20y\nw elem 3 z\n",
        Some((4, Cause::NoEnd)),
    ),
    (
        "[\"webtrace\",1]\n[\"r\",\"var\",0,\"x\"]\n[\"w\", \"slot\", 10, \"a b\"]\n[\"r\",\"elem\",4294967295,\"y%\"]\n[\"end\"]\n",
        "r var 0 x\nw slot 10 a%20b\nr elem 4294967295 y%25\n",
        None,
    ),
    (
        "[\"webtrace\",1]\n[\"parse\",0,1,\"plain\"]\n[\"set\",1,7.0]\n[\"end\"]\n",
        "parse 0 1 plain\n",
        Some((3, Cause::BadRecord)),
    ),
];

#[test]
fn cut_anywhere(rt: HostRuntime) {
    for row in &ROWS {
        let wrong = wrong_cut::<JsonLines>(rt.alloc(), &of_row(row));
        assert_eq!(rt; wrong, None, "{}", row.0);
    }
}

#[test]
fn byte_by_byte(rt: HostRuntime) {
    for row in &ROWS {
        let read = is_read_in_bytes::<JsonLines>(rt.alloc(), &of_row(row));
        assert!(rt; read, "{}", row.0);
    }
}

#[test]
fn lines_at_the_limit(rt: HostRuntime) {
    for (spaces, end, cause) in [
        (4096, "\n", Cause::BadRecord),
        (4097, "\n", Cause::LongLine),
        (4096, "", Cause::NoEnd),
        (4097, "", Cause::LongLine),
    ] {
        let refused = is_long_line_refused::<JsonLines>(
            rt.alloc(),
            b"[\"webtrace\",1]\n",
            b' ',
            spaces,
            end,
            cause,
        );
        assert!(rt; refused == Ok(true), "{spaces}{end}");
    }
}

/// What comes, and the version that is told.
static VERSIONS: [(&str, Option<Version>); 6] = [
    ("", None),
    ("[\"webtrace\",1]", None),
    ("[\"webtrace\",1]\n", Some(Version::One)),
    ("[\"webtrace\",2]\n[\"exec\",1]\n", Some(Version::Two)),
    ("[\"webtrace\",2]\n[\"exec\"]\n", Some(Version::Two)),
    ("[\"webtrace\",3]\n", None),
];

#[test]
fn versions(rt: HostRuntime) {
    for (bytes, version) in &VERSIONS {
        let told = version_of::<JsonLines>(rt.alloc(), bytes);
        assert!(rt; told == *version, "{bytes}");
    }
}

#[test]
fn refusals_stay(rt: HostRuntime) {
    let stays = stays_refused::<JsonLines>(
        rt.alloc(),
        "[\"webtrace\",1]\n[\"exec\",1]\n[\"exec\"]\n[\"exec\",2]\n",
        "[\"exec\",3]\n[\"end\"]\n",
    );
    assert!(rt; stays);
}

static MARKS: [Mark; 6] = [
    ("[\"webtrace\",1]\n[\"exec\",1]\n[\"ex", 1, 1, false),
    ("ec\",2]", 0, 1, false),
    ("\n[\"en", 1, 2, false),
    ("d\"]", 0, 2, false),
    ("\n", 0, 2, true),
    ("", 0, 2, true),
];

#[test]
fn marks(rt: HostRuntime) {
    assert!(rt; tells_marks::<JsonLines>(rt.alloc(), &MARKS));
}
