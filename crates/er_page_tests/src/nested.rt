//! The look-ups over a list with inline dispatches: what each answers of pieces that go on, and of
//! what came last.

use crate::letting_go::let_go;
use crate::reading::Reading;
use er_io::NoMemory;
use er_page::page::Page;
use er_text::Cause;
use er_trace::fault::LineFault;
use er_trace::name::Name;
use std::alloc::Global;
use std::process::Abort;
use std::test::Fail;

/// Lines, with the action that each begins.
static LINES: [&str; 33] = [
    "parse 0 1 inline", // 0
    "exec 1", // 1
    "on 7",
    "on 8",
    "every 3 5",
    "send 6",
    "parse 0 2 async", // 2
    "exec 2", // 3
    "parse 0 3 async", // 4
    "parse 0 9 image", // 5
    "eload 10 9", // 6
    "run 10 5 7", // 7
    "run 10 2 8", // 8
    "run 10 5 8", // 9
    "inline 20 1 focus", // 10
    "run 20 0 7", // 11
    "close 20", // 12
    "back 20", // 13
    "close 10", // 14
    "inline 21 1 focus", // 15
    "close 21", // 16
    "inline 22 1 blur", // 17
    "close 22", // 18
    "back 22", // 19
    "back 21", // 20
    "tick 3", // 21
    "tick 3", // 22
    "reply 30 6", // 23
    "close 30", // 24
    "wfire 31 0 resize", // 25
    "close 31", // 26
    "exec 3", // 27
    "inline 40 1 focus", // 28
];

/// Reads the lines, up to the first that is refused.
fn read_lines(reading: &mut Reading, alloc: Global) -> Result<Option<Cause>, LineFault> {
    for line in LINES {
        let refused = reading.read(alloc, line)?;
        if refused.is_some() {
            return Ok(refused);
        }
    }
    Ok(None)
}

/// A look-up by one number that answers one.
#[derive(Clone, Copy, Debug)]
enum Ask {
    LastTick,
    LastReplyClose,
    LastGroup,
    SuspendedBy,
}

/// Number 99 is never declared.
static ROWS: [(Ask, u32, Option<u32>); 15] = [
    (Ask::LastTick, 3, Some(22)),
    (Ask::LastTick, 99, None),
    (Ask::LastReplyClose, 6, Some(24)),
    (Ask::LastReplyClose, 99, None),
    (Ask::LastGroup, 10, Some(5)),
    (Ask::LastGroup, 20, Some(0)),
    (Ask::LastGroup, 21, None),
    (Ask::LastGroup, 99, None),
    (Ask::SuspendedBy, 20, Some(9)),
    (Ask::SuspendedBy, 21, Some(14)),
    (Ask::SuspendedBy, 22, Some(16)),
    (Ask::SuspendedBy, 40, Some(27)),
    (Ask::SuspendedBy, 10, None),
    (Ask::SuspendedBy, 30, None),
    (Ask::SuspendedBy, 99, None),
];

fn answer(page: &Page, ask: Ask, number: u32) -> Option<u32> {
    match ask {
        Ask::LastTick => page.last_tick(number),
        Ask::LastReplyClose => page.last_reply_close(number),
        Ask::LastGroup => page.last_group(number),
        Ask::SuspendedBy => page.suspended_by(number),
    }
}

fn by_number(rt: &impl Abort, page: &Page) {
    for (ask, number, due) in &ROWS {
        assert!(rt; answer(page, *ask, *number) == *due, "{ask:?} {number}");
    }
}

/// The greatest group of a dispatch below a group.
static BELOW: [(u32, u32, Option<u32>); 5] = [
    (10, 5, Some(2)),
    (10, 6, Some(5)),
    (10, 2, None),
    (21, 9, None),
    (99, 9, None),
];

fn by_group(rt: &impl Abort, page: &Page) {
    for (dispatch, group, due) in BELOW {
        assert!(rt;
            page.group_below(dispatch, group) == due,
            "{dispatch} {group}"
        );
    }
    assert!(rt; page.runs_in(10, 5) == [7, 9].as_slice());
    assert!(rt; page.runs_in(10, 2) == [8].as_slice());
    assert!(rt; page.runs_in(10, 3).is_empty());
    assert!(rt; page.runs_in(99, 0).is_empty());
}

fn by_document(rt: &impl Abort, page: &Page) {
    assert!(rt; page.async_runs(0) == [3, 27].as_slice());
    assert!(rt; page.async_runs(99).is_empty());
    assert!(rt; page.static_closes(0) == [14].as_slice());
    assert!(rt; page.static_closes(99).is_empty());
}

/// The latest close piece at a target, of a type: of an element, or of the window of a document.
static CLOSES: [(bool, u32, &str, Option<u32>); 9] = [
    (true, 1, "focus", Some(19)),
    (true, 1, "blur", Some(18)),
    (true, 1, "click", None),
    (true, 9, "load", None),
    (true, 99, "focus", None),
    (false, 0, "resize", Some(26)),
    (false, 0, "focus", None),
    (false, 1, "resize", None),
    (false, 99, "resize", None),
];

fn last_close(
    alloc: Global,
    page: &Page,
    is_element: bool,
    target: u32,
    name: &str,
) -> Result<Option<u32>, NoMemory> {
    let bytes = name.as_bytes();
    if bytes.is_empty() || bytes.len() > 255 {
        return Ok(None);
    }
    let name = Name::new(alloc, bytes)?;
    if is_element {
        Ok(page.last_element_close(target, &name))
    } else {
        Ok(page.last_window_close(target, &name))
    }
}

fn by_target(rt: &impl Abort, alloc: Global, page: &Page) -> Result<(), NoMemory> {
    for (is_element, target, name, due) in CLOSES {
        let found = last_close(alloc, page, is_element, target, name)?;
        assert!(rt; found == due, "{target} {name}");
    }
    Ok(())
}

/// An action, and the first and the latest piece of its event.
static PIECES: [(u32, Option<(u32, u32)>); 9] = [
    (1, Some((1, 1))),
    (9, Some((9, 13))),
    (13, Some((9, 13))),
    (14, Some((14, 20))),
    (16, Some((16, 19))),
    (19, Some((16, 19))),
    (20, Some((14, 20))),
    (28, Some((28, 28))),
    (29, None),
];

/// The event of the action, if it has begun.
fn event(reading: &Reading, action: u32) -> Option<u32> {
    if action >= reading.page.actions() {
        return None;
    }
    Some(reading.page.event_of(action))
}

/// The event's latest piece, if it is one.
#[tactic(auto, using(er_page::proofs::PageLemmas::event_of_itself))]
fn latest(reading: &Reading, event: u32) -> Option<u32> {
    if event >= reading.page.actions() {
        return None;
    }
    let found = reading.page.event_of(event);
    if found != event {
        return None;
    }
    Some(reading.page.latest_piece(event))
}

fn pieces(reading: &Reading, action: u32) -> Option<(u32, u32)> {
    let event = event(reading, action)?;
    let piece = latest(reading, event)?;
    Some((event, piece))
}

fn by_action(rt: &impl Abort, reading: &Reading) {
    for (action, due) in PIECES {
        assert!(rt; pieces(reading, action) == due, "{action}");
    }
}

#[test]
fn nested_look_ups(rt: HostRuntime) -> Result<(), Fail> {
    let mut reading = Reading::new(rt.alloc())?;
    assert!(rt; reading.page.inline_depth() == 0);
    let refused = read_lines(&mut reading, rt.alloc());
    assert!(rt; refused == Ok(None));
    assert!(rt; reading.page.inline_depth() == 1);
    assert!(rt; reading.page.open_dispatch() == Some(40));
    by_number(&rt, &reading.page);
    by_group(&rt, &reading.page);
    by_document(&rt, &reading.page);
    by_action(&rt, &reading);
    let targets = by_target(&rt, rt.alloc(), &reading.page);
    let_go(reading);
    Ok(targets?)
}
