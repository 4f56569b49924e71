//! How many actions a page takes, and how many inline dispatches its stack.

use crate::letting_go::let_go;
use crate::reading::Reading;
use er_io::NoMemory;
use er_text::Cause;
use er_trace::fault::LineFault;
use er_trace::name::Name;
use er_trace::record::{Kind, Record};
use std::alloc::Global;
use std::test::Fail;

/// How many actions may begin.
const MOST_ACTIONS: u32 = 32_768;

/// Lines after the last action that may begin. Naming comes first, and a note begins no action.
static LINES: [(&str, Option<Cause>); 4] = [
    ("parse 0 32768 plain", Some(Cause::TooManyActions)),
    ("parse 0 7 plain", Some(Cause::Again)),
    ("send 1", None),
    ("reply 1 1", Some(Cause::TooManyActions)),
];

/// The parse step of document 0 that makes the element.
fn step(element: u32) -> Record {
    Record::Parse {
        doc: 0,
        element,
        kind: Kind::Plain,
    }
}

/// Takes a parse step for each element below the count, up to the first that is refused.
fn fill(reading: &mut Reading, count: u32) -> Result<Option<Cause>, NoMemory> {
    for element in 0..count {
        let refused = reading.take(&step(element))?;
        if refused.is_some() {
            return Ok(refused);
        }
    }
    Ok(None)
}

/// The first line that has not its cause.
fn wrong_line(reading: &mut Reading, alloc: Global) -> Result<Option<&'static str>, LineFault> {
    for (line, due) in LINES {
        if reading.read(alloc, line)? != due {
            return Ok(Some(line));
        }
    }
    Ok(None)
}

#[test]
fn parse_steps(rt: HostRuntime) -> Result<(), Fail> {
    let mut reading = Reading::new(rt.alloc())?;
    let refused = fill(&mut reading, MOST_ACTIONS);
    let actions = reading.page.actions();
    let wrong = wrong_line(&mut reading, rt.alloc());
    let_go(reading);
    assert!(rt; refused?.is_none());
    assert!(rt; actions == MOST_ACTIONS);
    assert!(rt; wrong?.is_none());
    Ok(())
}

/// How many inline dispatches the stack may hold.
const MOST_INLINE: u32 = 256;

/// Lines before the first inline dispatch. The dispatch that they begin is not inline,
/// and does not count.
static CALLER: [&str; 4] = ["parse 0 1 plain", "on 1", "fire 999 1 a", "run 999 0 1"];

/// Lines after the last inline dispatch that the stack may hold, and a handler of it. Naming comes
/// first; a close leaves an inline dispatch where it is, and its `back` makes room.
static DEEP: [(&str, Option<Cause>); 9] = [
    ("inline 256 1 a", Some(Cause::TooDeep)),
    ("inline 255 1 a", Some(Cause::Again)),
    ("inline 256 9 a", Some(Cause::Unknown)),
    ("fire 256 1 a", Some(Cause::Misplaced)),
    ("close 255", None),
    ("inline 256 1 a", Some(Cause::TooDeep)),
    ("back 255", None),
    ("inline 256 1 a", None),
    ("inline 257 1 a", Some(Cause::Misplaced)),
];

/// Takes lines, up to the first that is refused.
fn read_all(
    reading: &mut Reading,
    alloc: Global,
    lines: &[&str],
) -> Result<Option<Cause>, LineFault> {
    for line in lines {
        let refused = reading.read(alloc, line)?;
        if refused.is_some() {
            return Ok(refused);
        }
    }
    Ok(None)
}

/// Takes inline dispatches, the numbers below the count, each called by a handler of the one
/// before, up to the first that is refused.
fn nest(reading: &mut Reading, name: &Name, count: u32) -> Result<Option<Cause>, NoMemory> {
    for dispatch in 0..count {
        let begin = Record::Inline {
            dispatch,
            element: 1,
            name: name.copy()?,
        };
        let refused = reading.take(&begin)?;
        if refused.is_some() {
            return Ok(refused);
        }
        let run = Record::Run {
            dispatch,
            group: 0,
            handler: 1,
        };
        let refused = reading.take(&run)?;
        if refused.is_some() {
            return Ok(refused);
        }
    }
    Ok(None)
}

/// The first line of those after the last inline dispatch that has not its cause.
fn wrong_depth(reading: &mut Reading, alloc: Global) -> Result<Option<&'static str>, LineFault> {
    for (line, due) in DEEP {
        if reading.read(alloc, line)? != due {
            return Ok(Some(line));
        }
    }
    Ok(None)
}

#[test]
fn inline_dispatches(rt: HostRuntime) -> Result<(), Fail> {
    let name = Name::new(rt.alloc(), b"a")?;
    let mut reading = Reading::new(rt.alloc())?;
    let caller = read_all(&mut reading, rt.alloc(), &CALLER);
    let refused = nest(&mut reading, &name, MOST_INLINE);
    let depth = reading.page.inline_depth();
    let wrong = wrong_depth(&mut reading, rt.alloc());
    let_go(reading);
    assert!(rt; caller?.is_none());
    assert!(rt; refused?.is_none());
    assert!(rt; depth == MOST_INLINE);
    assert!(rt; wrong?.is_none());
    Ok(())
}
