//! The first cause against a line.

use crate::letting_go::let_go;
use crate::reading::Reading;
use crate::rows::{ACCEPTED, AGAIN, MISPLACED, NOT_SCRIPT, UNKNOWN};
use er_text::Cause;
use er_trace::fault::LineFault;
use std::alloc::Global;
use std::process::Abort;
use std::test::Fail;

/// The cause against the line that is refused first, if any, and how many come after it.
fn read_each(
    reading: &mut Reading,
    alloc: Global,
    lines: &[&str],
) -> Result<(Option<Cause>, usize), LineFault> {
    let mut left = lines.len();
    for line in lines {
        left = left.saturating_sub(1);
        let cause = reading.read(alloc, line)?;
        if cause.is_some() {
            return Ok((cause, left));
        }
    }
    Ok((None, left))
}

/// The same from the page of no lines.
fn read_first(alloc: Global, lines: &[&str]) -> Result<(Option<Cause>, usize), Fail> {
    let mut reading = Reading::new(alloc)?;
    let found = read_each(&mut reading, alloc, lines);
    let_go(reading);
    Ok(found?)
}

/// Each row has this cause against its last line, and none before.
fn each_has(
    rt: &impl Abort,
    alloc: Global,
    rows: &[&[&str]],
    cause: Option<Cause>,
) -> Result<(), Fail> {
    for lines in rows {
        assert!(rt; read_first(alloc, lines)? == (cause, 0), "{lines:?}");
    }
    Ok(())
}

#[test]
fn causes(rt: HostRuntime) -> Result<(), Fail> {
    let alloc = rt.alloc();
    each_has(&rt, alloc, &UNKNOWN, Some(Cause::Unknown))?;
    each_has(&rt, alloc, &AGAIN, Some(Cause::Again))?;
    each_has(&rt, alloc, &NOT_SCRIPT, Some(Cause::NotScript))?;
    each_has(&rt, alloc, &MISPLACED, Some(Cause::Misplaced))?;
    each_has(&rt, alloc, &ACCEPTED, None)
}
