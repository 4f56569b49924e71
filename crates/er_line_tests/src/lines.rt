//! Traces of lines of text.

use crate::feeds::{
    Due, Mark, Row, is_long_line_refused, is_read_in_bytes, joined, of_row, stays_refused,
    tells_marks, version_of, wrong_cut,
};
use er_lines::format::Lines;
use er_lines::text::TextLines;
use er_text::Cause;
use er_trace::record::Record;
use er_trace::version::Version;
use std::alloc::{AllocError, Global};

/// Texts, the lines of the records that come of each, and the line that is refused.
static ROWS: [Row; 17] = [
    ("", "", Some((1, Cause::NoEnd))),
    ("webtrace 1", "", Some((1, Cause::NoEnd))),
    ("webtrace 1\n", "", Some((2, Cause::NoEnd))),
    ("webtrace 2\nexec 1\nend\n", "exec 1\n", None),
    ("webtrace 3\njob 1\nend\n", "job 1\n", None),
    (
        "webtrace 2\nexec 1\njob 1\nend\n",
        "exec 1\n",
        Some((3, Cause::BadRecord)),
    ),
    ("webtrace 4\nend\n", "", Some((1, Cause::BadHeader))),
    ("webtrace 1\r\nend\n", "", Some((1, Cause::BadHeader))),
    ("webtrace 1\nend\n", "", None),
    ("webtrace 1\nend", "", Some((2, Cause::NoEnd))),
    ("webtrace 1\nend\n\n", "", Some((3, Cause::AfterEnd))),
    ("webtrace 1\nend\nend\n", "", Some((3, Cause::AfterEnd))),
    (
        "webtrace 1\nparse 0 1 inline\nexec 1\nend\n",
        "parse 0 1 inline\nexec 1\n",
        None,
    ),
    (
        "webtrace 1\nr var 0 x%20y\nw elem 3 z\nr var",
        "r var 0 x%20y\nw elem 3 z\n",
        Some((4, Cause::NoEnd)),
    ),
    (
        "webtrace 1\nexec 1\nexec\nexec 2\nend\n",
        "exec 1\n",
        Some((3, Cause::BadRecord)),
    ),
    (
        "webtrace 1\nexec 1\n\nend\n",
        "exec 1\n",
        Some((3, Cause::BadRecord)),
    ),
    (
        "webtrace 1\nexec 1\nEnd\n",
        "exec 1\n",
        Some((3, Cause::BadRecord)),
    ),
];

#[test]
fn cut_anywhere(rt: HostRuntime) {
    for row in &ROWS {
        let wrong = wrong_cut::<TextLines>(rt.alloc(), &of_row(row));
        assert_eq!(rt; wrong, None, "{}", row.0);
    }
}

#[test]
fn byte_by_byte(rt: HostRuntime) {
    for row in &ROWS {
        let read = is_read_in_bytes::<TextLines>(rt.alloc(), &of_row(row));
        assert!(rt; read, "{}", row.0);
    }
}

#[test]
fn lines_at_the_limit(rt: HostRuntime) {
    for (letters, end, cause) in [
        (1024, "\n", Cause::BadRecord),
        (1025, "\n", Cause::LongLine),
        (1024, "", Cause::NoEnd),
        (1025, "", Cause::LongLine),
    ] {
        let refused = is_long_line_refused::<TextLines>(
            rt.alloc(),
            b"webtrace 1\n",
            b'a',
            letters,
            end,
            cause,
        );
        assert!(rt; refused == Ok(true), "{letters}{end}");
    }
}

/// Accesses with names of 1, 29, 30 and 31 bytes, on both sides of what lies in place, and one with
/// a byte that is spelled by digits.
static NAMES: [&str; 5] = [
    "w slot 4294967295 x\n",
    "r var 0 abcdefghijklmnopqrstuvwxyz012\n",
    "r var 0 abcdefghijklmnopqrstuvwxyz0123\n",
    "r elem 10 abcdefghijklmnopqrstuvwxyz01234\n",
    "r elem 10 abcdefghijklmnopqrstu%00\n",
];

/// Lines behind them, with more bytes than lie in place: a line that few bytes follow is read in
/// another way.
const LATER: &[u8] = b"w var 1 a\nexec 1\nw var 2 b\nr var 3 c\n";

/// Whether the line comes with those behind it, wherever the text is cut.
fn is_read(alloc: Global, line: &[u8]) -> Result<bool, AllocError> {
    let text = joined(alloc, &[b"webtrace 1\n", line, LATER, b"end\n"])?;
    let lines = joined(alloc, &[line, LATER])?;
    let due = Due {
        text: text.as_slice(),
        lines: lines.as_slice(),
        answer: Ok(()),
    };
    Ok(wrong_cut::<TextLines>(alloc, &due).is_none())
}

#[test]
fn names_of_any_length(rt: HostRuntime) {
    for line in &NAMES {
        let read = is_read(rt.alloc(), line.as_bytes());
        assert!(rt; read == Ok(true), "{line}");
    }
}

/// Whether an access whose name has so many letters is read, wherever the text is cut.
fn is_long_name_read(alloc: Global, letters: usize) -> Result<bool, AllocError> {
    let mut line = joined(alloc, &[b"r var 0 "])?;
    line.resize(line.len().saturating_add(letters), b'a')?;
    line.extend_from_slice(b"\n")?;
    is_read(alloc, line.as_slice())
}

#[test]
fn longest_name(rt: HostRuntime) {
    for (letters, wanted) in [(255, true), (256, false)] {
        let read = is_long_name_read(rt.alloc(), letters);
        assert!(rt; read == Ok(wanted), "{letters}");
    }
}

#[test]
fn refusals_stay(rt: HostRuntime) {
    let stays = stays_refused::<TextLines>(
        rt.alloc(),
        "webtrace 1\nexec 1\nexec\nexec 2\n",
        "exec 3\nend\n",
    );
    assert!(rt; stays);
}

static MARKS: [Mark; 6] = [
    ("webtrace 1\nexec 1\nex", 1, 1, false),
    ("ec 2", 0, 1, false),
    ("\nen", 1, 2, false),
    ("d", 0, 2, false),
    ("\n", 0, 2, true),
    ("", 0, 2, true),
];

#[test]
fn marks(rt: HostRuntime) {
    assert!(rt; tells_marks::<TextLines>(rt.alloc(), &MARKS));
}

/// What comes, and the version that is told.
static VERSIONS: [(&str, Option<Version>); 8] = [
    ("", None),
    ("webtrace 1", None),
    ("webtrace 1\n", Some(Version::One)),
    ("webtrace 2\nexec 1\n", Some(Version::Two)),
    ("webtrace 2\nexec\n", Some(Version::Two)),
    ("webtrace 2\nend\n", Some(Version::Two)),
    ("webtrace 3\n", Some(Version::Three)),
    ("webtrace 4\n", None),
];

#[test]
fn versions(rt: HostRuntime) {
    for (bytes, version) in &VERSIONS {
        let told = version_of::<TextLines>(rt.alloc(), bytes);
        assert!(rt; told == *version, "{bytes}");
    }
}

/// Bytes, and how many of them stand behind the record that is read at their front.
static FRONTS: [(&str, Option<usize>); 36] = [
    ("parse 0 1 plain\nrest", Some(4)),
    ("parse 4294967295 10 plain\n", Some(0)),
    ("set 7 4294967295\n", Some(0)),
    ("timer 0\ntimer 1\n", Some(8)),
    (
        "w slot 12 onclick\nr var 0 a name of enough bytes",
        Some(30),
    ),
    ("r slot 9 click\nw var 0 a name of enough bytes", Some(30)),
    (
        "w var 4294967295 x\nr elem 3 a name of enough bytes",
        Some(31),
    ),
    ("r var 0 count\nw elem 3 a name of enough bytes", Some(31)),
    ("w elem 10 buy\nr slot 4 a name of enough bytes", Some(31)),
    ("r elem 0 buy\nw slot 4 a name of enough bytes", Some(31)),
    ("tick 7\nrest", Some(4)),
    ("tick 4294967295\n", Some(0)),
    ("close 0\nclose 1\n", Some(8)),
    ("close 4294967295\n", Some(0)),
    ("r var 0 a%20b\nr var 0 a name of enough bytes", None),
    ("r var 00 x\nr var 0 a name of enough bytes", None),
    ("parse 0 1 plain", None),
    ("parse 0 1 plainer\n", None),
    ("parse 0 1 plain \n", None),
    ("parse 0 1 inline\n", None),
    ("parse 0 4294967296 plain\n", None),
    ("parse 00 1 plain\n", None),
    ("parser 0 1 plain\n", None),
    ("parse  0 1 plain\n", None),
    ("set 7\n", None),
    ("set 7 \n", None),
    ("set 7 01\n", None),
    ("set 7 1 \n", None),
    ("timer 10000000000\n", None),
    ("timer 1", None),
    ("tick 01\n", None),
    ("tick 7 \n", None),
    ("close  7\n", None),
    ("closer 7\n", None),
    ("close 7", None),
    ("", None),
];

fn let_go(_: Record) {}

/// How many bytes stand behind the record that is read at the front.
fn left_of(alloc: Global, bytes: &str) -> Option<usize> {
    match TextLines::front(alloc, Version::One, bytes.as_bytes()) {
        Some((rec, left)) => {
            let_go(rec);
            Some(left.len())
        }
        None => None,
    }
}

#[test]
fn fronts(rt: HostRuntime) {
    for (bytes, left) in &FRONTS {
        assert_eq!(rt; left_of(rt.alloc(), bytes), *left, "{bytes}");
    }
}
