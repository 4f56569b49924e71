//! The worked rows through `run`, table by table.

use crate::row::{Refusal, Row};
use crate::through::{Call, Written, call_of, through};
use crate::{
    coverage, dispatches, first_path, loads, naming, orders, pieces, requests, rows, scripts,
    tasks, timers,
};
use std::alloc::{AllocError, Global};
use std::process::Abort;
use std::thread::Threads;

/// Whether the trace gives its report, where a read gives at most so many bytes.
fn is_reported(
    rt: &(impl Threads + Sync),
    alloc: Global,
    words: &str,
    chunk: u32,
    row: &Row,
) -> Result<bool, AllocError> {
    let call = Call {
        words,
        chunk,
        ..call_of(row.trace)
    };
    let due = row.report(alloc)?;
    let done = through(rt, alloc, &call, &due)?;
    Ok(done.is_whole(row.status()))
}

/// Whether the trace is refused with its line and cause, where a read gives at most so many bytes.
fn is_refused(
    rt: &(impl Threads + Sync),
    alloc: Global,
    chunk: u32,
    row: &Refusal,
) -> Result<bool, AllocError> {
    let call = Call {
        chunk,
        ..call_of(row.trace)
    };
    let due = row.text(alloc)?;
    let done = through(rt, alloc, &call, &due)?;
    Ok(done.is_whole(3))
}

/// The rows that stand as laws.
#[test]
fn worked_rows(rt: HostRuntime) {
    for row in &rows::all() {
        let done = through(&rt, rt.alloc(), &call_of(row.trace), row.report);
        assert!(rt;
            done.is_ok_and(|done| done.written == Written::Whole),
            "{}",
            row.trace
        );
    }
}

/// The reports of all tables.
fn all_reports(rt: &(impl Abort + Threads + Sync), alloc: Global, words: &str, chunk: u32) {
    for rows in [
        first_path::REPORTS.as_slice(),
        &scripts::REPORTS,
        &loads::REPORTS,
        &timers::REPORTS,
        &requests::REPORTS,
        &dispatches::REPORTS,
        &pieces::REPORTS,
        &orders::REPORTS,
        &coverage::REPORTS,
        &tasks::REPORTS,
    ] {
        for row in rows {
            let same = is_reported(rt, alloc, words, chunk, row);
            assert!(rt; same == Ok(true), "{}", row.trace);
        }
    }
}

/// The refusals of all tables.
fn all_refusals(rt: &(impl Abort + Threads + Sync), alloc: Global, chunk: u32) {
    for rows in [
        first_path::REFUSALS.as_slice(),
        &scripts::REFUSALS,
        &orders::REFUSALS,
        &naming::REFUSALS,
        &tasks::REFUSALS,
    ] {
        for row in rows {
            let same = is_refused(rt, alloc, chunk, row);
            assert!(rt; same == Ok(true), "{}", row.trace);
        }
    }
}

/// At once, byte by byte, and with words that ask for the same.
#[test]
fn legal_traces(rt: HostRuntime) {
    for (words, chunk) in [("", 4096), ("", 1), ("check", 4096), ("--shards 64", 4096)] {
        all_reports(&rt, rt.alloc(), words, chunk);
    }
}

/// At once and byte by byte.
#[test]
fn illegal_traces(rt: HostRuntime) {
    for chunk in [4096, 1] {
        all_refusals(&rt, rt.alloc(), chunk);
    }
}
