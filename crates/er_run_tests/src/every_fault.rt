//! The realistic load with each read and each write failing in turn, and cut behind each
//! of its lines.

use crate::realistic::{TRACE, call_of_load, load_through};
use crate::through::{Call, Done, Written, call_of, through};
use er_shard::FreeGate;
use std::alloc::{AllocError, Global};
use std::thread::Threads;

/// How many reads of 64 bytes a clean run makes: those of the 596 bytes of the load, and one that
/// gives nothing.
const READS: u32 = 11;

/// How many writes of 16 bytes a clean run makes for the 513 bytes of the report.
const WRITES: u32 = 33;

/// What comes of the load where reads give 64 bytes and writes take 16, and these fail.
fn failing(
    rt: &(impl Threads + Sync),
    alloc: Global,
    failing_read: Option<u32>,
    failing_write: Option<u32>,
) -> Result<Done, AllocError> {
    let call = Call {
        chunk: 64,
        failing_read,
        taken: 16,
        failing_write,
        ..call_of_load()
    };
    load_through(&FreeGate { rt }, alloc, &call)
}

/// Whether this came of a call.
fn is(done: Result<Done, AllocError>, status: u8, written: Written, calls: (u32, u32)) -> bool {
    match done {
        Ok(done) => done.is(status, written, calls),
        Err(_) => false,
    }
}

/// The last call is the one that fails.
#[test]
fn each_read_and_each_write_fails(rt: HostRuntime) {
    let clean = failing(&rt, rt.alloc(), None, None);
    assert!(rt; is(clean, 1, Written::Whole, (READS, WRITES)));
    for number in 1..=READS {
        let done = failing(&rt, rt.alloc(), Some(number), None);
        assert!(rt;
            is(done, 4, Written::Front(0), (number, 0)),
            "read {number}"
        );
    }
    for number in 1..=WRITES {
        let done = failing(&rt, rt.alloc(), None, Some(number));
        let front = Written::Front((number as usize).saturating_sub(1).saturating_mul(16));
        assert!(rt; is(done, 5, front, (READS, number)), "write {number}");
    }
}

fn put_lines(text: &mut String, count: usize) -> Result<(), AllocError> {
    for line in TRACE.lines().take(count) {
        text.push_str(line)?;
        text.push_str("\n")?;
    }
    Ok(())
}

/// So many lines of the load.
fn first_lines(alloc: Global, count: usize) -> Result<String, AllocError> {
    let mut text = String::new(alloc);
    put_lines(&mut text, count)?;
    Ok(text)
}

/// Whether so many lines are refused for want of an `end` line.
fn is_refused(rt: &(impl Threads + Sync), alloc: Global, count: u32) -> Result<bool, AllocError> {
    let input = first_lines(alloc, count as usize)?;
    let due = format!(in alloc; "refused {} no-end\n", count.saturating_add(1))?;
    let done = through(rt, alloc, &call_of(&input), &due)?;
    Ok(done.is_whole(3))
}

/// With which status a call ends on so many lines and an `end` line.
fn status_of(rt: &(impl Threads + Sync), alloc: Global, count: u32) -> Result<u8, AllocError> {
    let mut input = first_lines(alloc, count as usize)?;
    input.push_str("end\n")?;
    let done = through(rt, alloc, &call_of(&input), "")?;
    Ok(done.outcome.status())
}

/// How many lines the load has before its `end` line, and with how many its first race comes.
const LINES: u32 = 54;

const RACING: u32 = 41;

#[test]
fn each_cut(rt: HostRuntime) {
    for count in 0..=LINES {
        let refused = is_refused(&rt, rt.alloc(), count);
        assert!(rt; refused == Ok(true), "{count}");
    }
    for count in 1..=LINES {
        let due = if count < RACING { 0 } else { 1 };
        let status = status_of(&rt, rt.alloc(), count);
        assert!(rt; status == Ok(due), "{count}");
    }
}
