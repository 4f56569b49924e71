//! What a feed makes of a trace that comes in chunks, whatever the format of its lines.

use er_io::{WriteFault, put_all};
use er_io_system::MemorySink;
use er_lines::feed::LineFeed;
use er_lines::format::Lines;
use er_syntax::print::print_record;
use er_text::Cause;
use er_trace::fault::FeedFault;
use er_trace::record::Record;
use er_trace::version::Version;
use std::alloc::{AllocError, Global};

/// A trace, the lines of text of the records that come of it, and the line that is refused.
pub type Row = (&'static str, &'static str, Option<(u32, Cause)>);

/// A chunk, how many records it hands on, how many came by then, and whether the last
/// line has come.
pub type Mark = (&'static str, usize, u32, bool);

/// A trace, the lines of text of its records, and what a feed answers to it.
#[derive(Clone, Copy)]
pub struct Due<'a> {
    pub text: &'a [u8],
    pub lines: &'a [u8],
    pub answer: Result<(), FeedFault>,
}

pub fn of_row(row: &Row) -> Due<'static> {
    let (text, lines, refused) = *row;
    Due {
        text: text.as_bytes(),
        lines: lines.as_bytes(),
        answer: match refused {
            None => Ok(()),
            Some((line, cause)) => Err(FeedFault::Refused { line, cause }),
        },
    }
}

/// What comes of the text in two chunks.
fn feed_in_two<L: Lines>(
    alloc: Global,
    text: &[u8],
    place: usize,
    out: &mut Vec<Record>,
) -> Result<(), FeedFault> {
    let place = place.min(text.len());
    let mut feed: LineFeed<L> = LineFeed::new(alloc);
    let first = feed.feed(&text[..place], out);
    let second = first.and(feed.feed(&text[place..], out));
    second.and(feed.finish())
}

/// What comes of the text byte by byte.
fn feed_bytes<L: Lines>(
    alloc: Global,
    text: &[u8],
    out: &mut Vec<Record>,
) -> Result<(), FeedFault> {
    let mut feed: LineFeed<L> = LineFeed::new(alloc);
    let mut answer = Ok(());
    for byte in text {
        answer = answer.and(feed.feed(&[*byte], out));
    }
    answer.and(feed.finish())
}

fn print_lines(records: &[Record], sink: &mut MemorySink) -> Result<(), WriteFault> {
    for rec in records {
        print_record(rec, sink)?;
        put_all(sink, b"\n")?;
    }
    Ok(())
}

/// Whether the records are printed as these lines.
fn are_lines(alloc: Global, records: &[Record], lines: &[u8]) -> bool {
    match MemorySink::new(alloc, 1000, 1000, Vec::new(alloc)) {
        Ok(mut sink) => print_lines(records, &mut sink).is_ok() && sink.bytes() == lines,
        Err(_) => false,
    }
}

/// Whether the answer and the records are due, in two chunks.
fn is_read_in_two<L: Lines>(alloc: Global, due: &Due<'_>, place: usize) -> bool {
    let mut out = Vec::new(alloc);
    let answer = feed_in_two::<L>(alloc, due.text, place, &mut out);
    answer == due.answer && are_lines(alloc, out.as_slice(), due.lines)
}

/// Whether the answer and the records are due, byte by byte.
pub fn is_read_in_bytes<L: Lines>(alloc: Global, due: &Due<'_>) -> bool {
    let mut out = Vec::new(alloc);
    let answer = feed_bytes::<L>(alloc, due.text, &mut out);
    answer == due.answer && are_lines(alloc, out.as_slice(), due.lines)
}

/// The first place at which a cut gives what is not due.
pub fn wrong_cut<L: Lines>(alloc: Global, due: &Due<'_>) -> Option<usize> {
    for place in 0..=due.text.len() {
        if !is_read_in_two::<L>(alloc, due, place) {
            return Some(place);
        }
    }
    None
}

pub fn joined(alloc: Global, parts: &[&[u8]]) -> Result<Vec<u8>, AllocError> {
    let mut text = Vec::new(alloc);
    for part in parts {
        text.extend_from_slice(part)?;
    }
    Ok(text)
}

/// Whether the answer and the records are due, cut at the ends of the text and of its first line,
/// and within the second.
fn is_read_at_the_ends<L: Lines>(alloc: Global, due: &Due<'_>, first_line: usize) -> bool {
    let end = due.text.len();
    for place in [
        0,
        first_line,
        1000,
        end.saturating_sub(2),
        end.saturating_sub(1),
        end,
    ] {
        if !is_read_in_two::<L>(alloc, due, place) {
            return false;
        }
    }
    true
}

/// Whether a line of this byte, so many times, behind a first line is refused for this cause.
pub fn is_long_line_refused<L: Lines>(
    alloc: Global,
    first_line: &[u8],
    byte: u8,
    count: usize,
    end: &str,
    cause: Cause,
) -> Result<bool, AllocError> {
    let mut text = joined(alloc, &[first_line])?;
    text.resize(text.len().saturating_add(count), byte)?;
    text.extend_from_slice(end.as_bytes())?;
    let due = Due {
        text: text.as_slice(),
        lines: b"",
        answer: Err(FeedFault::Refused { line: 2, cause }),
    };
    Ok(is_read_at_the_ends::<L>(alloc, &due, first_line.len()))
}

/// What one call answers, and how many records it hands on.
fn fed<L: Lines>(
    alloc: Global,
    feed: &mut LineFeed<L>,
    chunk: &str,
) -> (Result<(), FeedFault>, usize) {
    let mut out = Vec::new(alloc);
    let answer = feed.feed(chunk.as_bytes(), &mut out);
    (answer, out.len())
}

/// Whether the third line of the first chunk is refused behind one record, and so is all
/// that follows.
pub fn stays_refused<L: Lines>(alloc: Global, chunk: &str, later: &str) -> bool {
    let refused = Err(FeedFault::Refused {
        line: 3,
        cause: Cause::BadRecord,
    });
    let mut feed: LineFeed<L> = LineFeed::new(alloc);
    let first = fed(alloc, &mut feed, chunk);
    let second = fed(alloc, &mut feed, later);
    first == (refused, 1) && second == (refused, 0) && feed.finish() == refused
}

/// Whether a feed tells these marks, and the trace ends with the last.
pub fn tells_marks<L: Lines>(alloc: Global, marks: &[Mark]) -> bool {
    let mut feed: LineFeed<L> = LineFeed::new(alloc);
    let mut tells = true;
    for (chunk, came, records, ended) in marks {
        let (answer, count) = fed(alloc, &mut feed, chunk);
        tells &= answer.is_ok() & (count == *came);
        tells &= (feed.records() == *records) & (feed.ended() == *ended);
    }
    tells & feed.finish().is_ok()
}

/// The version that a feed tells after these bytes.
pub fn version_of<L: Lines>(alloc: Global, bytes: &str) -> Option<Version> {
    let mut feed: LineFeed<L> = LineFeed::new(alloc);
    let _answer = fed(alloc, &mut feed, bytes);
    feed.version()
}
