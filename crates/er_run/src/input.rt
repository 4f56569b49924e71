//! Reads a trace chunk by chunk. The session takes the records of each line that ends.

ghost use Rattle.std.specs.Prelude.{◌≡◌, ℕ, ◌+◌, ◌<◌, List, ◌++◌, reverse, Option, Ok, Err, Some, None, IfOk, OnOk, IfErr};
ghost use Rattle.er_lines.specs.Lines.{IsTraceOf};
ghost use Rattle.er_lines.specs.Feed.{Stands};
ghost use Rattle.er_trace.specs.declared.version.Version.{Version};
ghost use Rattle.er_run.specs.Session.{HasTaken, MayTake, IsFaultIn, version_of};
ghost use Rattle.er_run.specs.Reading.{IsAt, HasNoOtherVersion, IsSomewhere, IsOpen, IsRead, IsReadTo, IsReading, GoesOn, Advances, Ends, IsRefusedBehind, IsFinalFault, CountsReads, fault_of};

use crate::session::{Session, begin, or_empty};
use er_io::Source;
use er_lines::feed::LineFeed;
use er_lines::format::Lines;
use er_text::Cause;
use er_trace::fault::FeedFault;
use er_trace::record::Record;
use er_trace::version::Version;
use std::alloc::Global;

/// How many bytes are read at a time.
const CHUNK: usize = 4096;

/// Why the input was not read to its end.
#[derive(Clone, Copy, Debug, PartialEq, Eq)]
pub(crate) enum InputFault {
    /// A read failed.
    Failed,
    /// A record is refused, or an allocation failed.
    Fault(FeedFault),
}

/// A line that is no line of a trace, and why.
#[derive(Clone, Copy, Debug, PartialEq, Eq)]
pub(crate) struct LineRefusal {
    pub(crate) line: u32,
    pub(crate) cause: Cause,
}

/// Whether reading goes on after a chunk.
#[derive(Clone, Copy)]
enum Step {
    GoesOn,
    /// The `end` line was read and nothing after it, or a line is refused.
    Ended(Option<LineRefusal>),
}

/// Reads the trace of the source, to its `end` line or to the first illegal line. Returns the
/// session of the records, and the line after them if it is no line of a trace.
pub(crate) fn read<L: Lines, S: Source>(
    alloc: Global,
    source: &mut S,
) -> Result<(Session, Option<LineRefusal>), InputFault>
    ensures read { IfOk result (λ read.
        IsRead L.format (S.left source.old) (S.left source.new) read.0 read.1) }
    ensures refused { (n : ℕ) (c : Cause)
        → result ≡ Err (InputFault.Fault (FeedFault.Refused n c))
        → IsReadTo L.format (S.left source.old) (S.left source.new) n c }
    ensures reads { CountsReads result (S.faults source.old) (S.faults source.new) }
{
    let mut session: Option<Session> = None;
    let mut feed: LineFeed<L> = LineFeed::new(alloc);
    let mut came = Vec::new(alloc);
    // Each turn reads a byte at least, and as long as no line is refused fewer bytes come
    // than turns may.
    for turn in 0..u64::MAX {
        match read_chunk(alloc, source, &mut feed, &mut session, &mut came) {
            Ok(Step::GoesOn) => {}
            Ok(Step::Ended(refused)) => {
                let Ok(made) = or_empty(alloc, session) else {
                    return Err(InputFault::Fault(FeedFault::NoMemory));
                };
                return Ok((made, refused));
            }
            Err(fault) => return Err(fault),
        }
    }
    unreachable!()
}

/// Reads the next chunk. The session takes the records of the lines that end in it. The list is
/// cleared first.
fn read_chunk<L: Lines, S: Source>(
    alloc: Global,
    source: &mut S,
    feed: &mut LineFeed<L>,
    session: &mut Option<Session>,
    came: &mut Vec<Record>,
) -> Result<Step, InputFault>
    requires some { IsSomewhere L.format feed.old.mark feed.old.line.items feed.old.fault
        session.old }
    requires going { feed.old.fault ≡ None }
    ensures on { result ≡ Ok Step.GoesOn → (bytes : List ℕ) (records : List Record)
        → IsAt L.format feed.old.mark feed.old.line.items feed.old.fault session.old bytes records
        → Advances L.format (S.left source.old) (S.left source.new)
        feed.new.mark feed.new.line.items feed.new.fault session.new bytes records }
    ensures going { result ≡ Ok Step.GoesOn → feed.new.fault ≡ None }
    ensures ahead { result ≡ Ok Step.GoesOn → (bytes : List ℕ) (records : List Record)
        → IsAt L.format feed.new.mark feed.new.line.items feed.new.fault session.new bytes records
        → IsOpen L.format bytes records }
    ensures ended { (refused : Option LineRefusal) → result ≡ Ok (Step.Ended refused)
        → (bytes : List ℕ) (records : List Record)
        → IsAt L.format feed.old.mark feed.old.line.items feed.old.fault session.old bytes records
        → Ends L.format (S.left source.old) (S.left source.new) session.new refused bytes }
    ensures refused { (n : ℕ) (c : Cause)
        → result ≡ Err (InputFault.Fault (FeedFault.Refused n c))
        → (bytes : List ℕ) (records : List Record)
        → IsAt L.format feed.old.mark feed.old.line.items feed.old.fault session.old bytes records
        → IsRefusedBehind L.format (S.left source.old) (S.left source.new) n c bytes }
    ensures reads { CountsReads result (S.faults source.old) (S.faults source.new) }
{
    let mut buffer = [0u8; CHUNK];
    let Ok(n) = source.read(&mut buffer) else {
        return Err(InputFault::Failed);
    };
    if n == 0 {
        return Ok(Step::Ended(line_at_end(feed)));
    }
    match feed_chunk(alloc, feed, session, came, &buffer[..n]) {
        Ok(None) => Ok(step_of(feed)),
        Ok(Some(refusal)) => Ok(Step::Ended(Some(refusal))),
        Err(fault) => Err(InputFault::Fault(fault)),
    }
}

/// Whether the `end` line was read.
fn step_of<L: Lines>(feed: &LineFeed<L>) -> Step
    requires { feed.now.fault ≡ None }
    ensures on { result ≡ Step.GoesOn → (bytes : List ℕ) (records : List Record)
        → Stands L.format feed.now.mark feed.now.line.items feed.now.fault bytes records
        → IsOpen L.format bytes records }
    ensures ended { (refused : Option LineRefusal) → result ≡ Step.Ended refused
        → (bytes : List ℕ) (records : List Record)
        → Stands L.format feed.now.mark feed.now.line.items feed.now.fault bytes records
        → (refused ≡ None) × IsTraceOf L.format bytes records }
{
    if feed.ended() {
        Step::Ended(None)
    } else {
        Step::GoesOn
    }
}

/// The line that lacks its end, at the end of the input.
fn line_at_end<L: Lines>(feed: &LineFeed<L>) -> Option<LineRefusal>
    requires { feed.now.fault ≡ None }
    ensures { (bytes : List ℕ) (records : List Record)
        → Stands L.format feed.now.mark feed.now.line.items feed.now.fault bytes records
        → (v : Version) → HasNoOtherVersion L.format v bytes
        → IsReading L.format v bytes records result }
{
    match feed.finish() {
        Ok(()) => None,
        Err(FeedFault::Refused { line, cause }) => Some(LineRefusal { line, cause }),
        // Only a feed that lacked memory before answers this.
        Err(FeedFault::NoMemory) => unreachable!(),
    }
}

/// Feeds a chunk. The records of the lines that end in it replace those of the list, and the
/// session takes them. Returns the line that is refused, if there is one.
fn feed_chunk<L: Lines>(
    alloc: Global,
    feed: &mut LineFeed<L>,
    session: &mut Option<Session>,
    came: &mut Vec<Record>,
    chunk: &[u8],
) -> Result<Option<LineRefusal>, FeedFault>
    requires { IsSomewhere L.format feed.old.mark feed.old.line.items feed.old.fault session.old }
    ensures on { OnOk result ((bytes : List ℕ) (records : List Record)
        → IsAt L.format feed.old.mark feed.old.line.items feed.old.fault session.old bytes records
        → GoesOn L.format feed.new.mark feed.new.line.items feed.new.fault session.new
        (bytes ++ chunk.now) records) }
    ensures fault { IfOk result (λ refused. feed.new.fault ≡ fault_of refused) }
    ensures refused { IfErr result (λ fault. (bytes : List ℕ) (records : List Record)
        → IsAt L.format feed.old.mark feed.old.line.items feed.old.fault session.old bytes records
        → IsFinalFault L.format (bytes ++ chunk.now) fault) }
{
    came.clear();
    match feed.feed(chunk, came) {
        Ok(()) => {
            if let Err(fault) = take_records(alloc, session, feed.version(), came.as_slice()) {
                return Err(fault);
            }
            Ok(None)
        }
        Err(FeedFault::Refused { line, cause }) => {
            if let Err(fault) = take_records(alloc, session, feed.version(), came.as_slice()) {
                return Err(fault);
            }
            Ok(Some(LineRefusal { line, cause }))
        }
        Err(FeedFault::NoMemory) => Err(FeedFault::NoMemory),
    }
}

/// Takes the records one after the other, to the first that is refused, in the version that the
/// first line gave. Before that line there are none.
fn take_records(
    alloc: Global,
    session: &mut Option<Session>,
    given: Option<Version>,
    records: &[Record],
) -> Result<(), FeedFault>
    requires { MayTake session.old given records.now }
    ensures taken { OnOk result ((earlier : List Record) → HasTaken session.old (reverse earlier)
        → HasTaken session.new (reverse (earlier ++ records.now))) }
    ensures version { OnOk result (version_of session.new ≡ given) }
    ensures refused { IfErr result (λ fault. (earlier : List Record)
        → HasTaken session.old (reverse earlier)
        → IsFaultIn given (earlier ++ records.now) fault) }
{
    let Ok(()) = begin(alloc, session, given) else {
        return Err(FeedFault::NoMemory);
    };
    match session {
        Some(made) => made.take_all(records),
        None => Ok(()),
    }
}
