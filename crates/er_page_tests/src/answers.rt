//! The look-ups over one list: each with something, and with nothing where it can have nothing.

use crate::letting_go::let_go;
use crate::reading::Reading;
use er_page::page::Page;
use er_page::piece::Begun;
use er_text::Cause;
use er_trace::fault::LineFault;
use er_trace::record::{Kind, Record};
use std::alloc::Global;
use std::process::Abort;
use std::test::Fail;

/// Lines, with the action that each begins.
static LINES: [&str; 34] = [
    "parse 0 1 plain", // 0
    "parse 0 2 frame 5", // 1
    "parse 5 3 async", // 2
    "new 0 4 async",
    "on 7",
    "set 1 10",
    "set 2 5",
    "every 3 5",
    "send 6",
    "exec 3", // 3
    "set 8 1",
    "timer 2", // 4
    "timer 1", // 5
    "tick 3", // 6
    "dcl 20 5", // 7
    "close 20", // 8
    "load 21 5", // 9
    "close 21", // 10
    "eload 22 2", // 11
    "close 22", // 12
    "reply 23 6", // 13
    "run 23 0 7", // 14
    "new 0 10 frame 11",
    "close 23", // 15
    "parse 0 12 sync", // 16
    "exec 12", // 17
    "parse 0 13 defer", // 18
    "parse 0 14 defer", // 19
    "parse 0 15 inline", // 20
    "exec 15", // 21
    "exec 13", // 22
    "exec 14", // 23
    "exec 4", // 24
    "fire 24 1 click", // 25
];

/// Reads the lines, up to the first that is refused.
fn read_lines(reading: &mut Reading, alloc: Global) -> Result<Option<Cause>, LineFault> {
    for line in LINES {
        let refused = reading.read(alloc, line)?;
        if refused.is_some() {
            return Ok(refused);
        }
    }
    Ok(None)
}

/// A look-up by one number.
#[derive(Clone, Copy, Debug)]
enum Ask {
    ElementMaker,
    DocumentMaker,
    HandlerMaker,
    TimeoutMaker,
    IntervalMaker,
    RequestMaker,
    Document,
    Frame,
    Inner,
    ParseAction,
    Run,
    Eload,
    Dcl,
    Load,
    Delay,
    TimerEvent,
    BeginEvent,
    CloseEvent,
    LastParse,
    LastBlockingRun,
    LastDeferredRun,
    LastDeferredElement,
}

/// Number 99 is never declared.
static ROWS: [(Ask, u32, Option<u32>); 69] = [
    (Ask::ElementMaker, 1, Some(0)),
    (Ask::ElementMaker, 4, Some(2)),
    (Ask::ElementMaker, 10, Some(14)),
    (Ask::ElementMaker, 99, None),
    (Ask::DocumentMaker, 5, Some(1)),
    (Ask::DocumentMaker, 11, Some(14)),
    (Ask::DocumentMaker, 0, None),
    (Ask::DocumentMaker, 99, None),
    (Ask::HandlerMaker, 7, Some(2)),
    (Ask::HandlerMaker, 99, None),
    (Ask::TimeoutMaker, 1, Some(2)),
    (Ask::TimeoutMaker, 8, Some(3)),
    (Ask::TimeoutMaker, 99, None),
    (Ask::IntervalMaker, 3, Some(2)),
    (Ask::IntervalMaker, 99, None),
    (Ask::RequestMaker, 6, Some(2)),
    (Ask::RequestMaker, 99, None),
    (Ask::Document, 3, Some(5)),
    (Ask::Document, 4, Some(0)),
    (Ask::Document, 99, None),
    (Ask::Frame, 5, Some(2)),
    (Ask::Frame, 11, Some(10)),
    (Ask::Frame, 0, None),
    (Ask::Frame, 99, None),
    (Ask::Inner, 2, Some(5)),
    (Ask::Inner, 10, Some(11)),
    (Ask::Inner, 1, None),
    (Ask::Inner, 99, None),
    (Ask::ParseAction, 3, Some(2)),
    (Ask::ParseAction, 4, None),
    (Ask::ParseAction, 99, None),
    (Ask::Run, 3, Some(3)),
    (Ask::Run, 4, Some(24)),
    (Ask::Run, 1, None),
    (Ask::Run, 99, None),
    (Ask::Eload, 2, Some(22)),
    (Ask::Eload, 1, None),
    (Ask::Eload, 99, None),
    (Ask::Dcl, 5, Some(20)),
    (Ask::Dcl, 0, None),
    (Ask::Dcl, 99, None),
    (Ask::Load, 5, Some(21)),
    (Ask::Load, 0, None),
    (Ask::Load, 99, None),
    (Ask::Delay, 1, Some(10)),
    (Ask::Delay, 99, None),
    (Ask::TimerEvent, 2, Some(4)),
    (Ask::TimerEvent, 1, Some(5)),
    (Ask::TimerEvent, 8, None),
    (Ask::TimerEvent, 99, None),
    (Ask::BeginEvent, 23, Some(13)),
    (Ask::BeginEvent, 24, Some(25)),
    (Ask::BeginEvent, 99, None),
    (Ask::CloseEvent, 23, Some(15)),
    (Ask::CloseEvent, 24, None),
    (Ask::CloseEvent, 99, None),
    (Ask::LastParse, 0, Some(20)),
    (Ask::LastParse, 5, Some(2)),
    (Ask::LastParse, 11, None),
    (Ask::LastParse, 99, None),
    (Ask::LastBlockingRun, 0, Some(21)),
    (Ask::LastBlockingRun, 5, None),
    (Ask::LastBlockingRun, 99, None),
    (Ask::LastDeferredRun, 0, Some(23)),
    (Ask::LastDeferredRun, 5, None),
    (Ask::LastDeferredRun, 99, None),
    (Ask::LastDeferredElement, 0, Some(14)),
    (Ask::LastDeferredElement, 5, None),
    (Ask::LastDeferredElement, 99, None),
];

fn answer(page: &Page, ask: Ask, number: u32) -> Option<u32> {
    match ask {
        Ask::ElementMaker => page.maker_of_element(number),
        Ask::DocumentMaker => page.maker_of_document(number),
        Ask::HandlerMaker => page.maker_of_handler(number),
        Ask::TimeoutMaker => page.maker_of_timeout(number),
        Ask::IntervalMaker => page.maker_of_interval(number),
        Ask::RequestMaker => page.maker_of_request(number),
        Ask::Document => page.document_of(number),
        Ask::Frame => page.frame_of(number),
        Ask::Inner => page.inner_of(number),
        Ask::ParseAction => page.parse_action(number),
        Ask::Run => page.run_of(number),
        Ask::Eload => page.eload_of(number),
        Ask::Dcl => page.dcl_of(number),
        Ask::Load => page.load_of(number),
        Ask::Delay => page.delay_of(number),
        Ask::TimerEvent => page.timer_event(number),
        Ask::BeginEvent => page.begin_event(number),
        Ask::CloseEvent => page.close_event(number),
        Ask::LastParse => page.last_parse(number),
        Ask::LastBlockingRun => page.last_blocking_run(number),
        Ask::LastDeferredRun => page.last_deferred_run(number),
        Ask::LastDeferredElement => page.last_deferred_element(number),
    }
}

/// Each look-up by one number.
fn by_number(rt: &impl Abort, page: &Page) {
    for (ask, number, due) in &ROWS {
        assert!(rt; answer(page, *ask, *number) == *due, "{ask:?} {number}");
    }
}

/// The kind of a script, and whether a parse step made the element.
static ELEMENTS: [(u32, Option<Kind>, bool); 9] = [
    (3, Some(Kind::Async), true),
    (4, Some(Kind::Async), false),
    (12, Some(Kind::Sync), true),
    (13, Some(Kind::Defer), true),
    (15, Some(Kind::Inline), true),
    (1, None, true),
    (2, None, true),
    (10, None, false),
    (99, None, false),
];

fn by_element(rt: &impl Abort, page: &Page) {
    for (element, kind, is_static) in ELEMENTS {
        assert!(rt; page.script_kind(element) == kind, "{element}");
        assert!(rt; page.is_static(element) == is_static, "{element}");
    }
}

/// Whether the first timeout was set before the second.
static TIMEOUTS: [(u32, u32, bool); 6] = [
    (1, 2, true),
    (1, 8, true),
    (2, 1, false),
    (1, 1, false),
    (1, 99, false),
    (99, 1, false),
];

fn by_timeout(rt: &impl Abort, page: &Page) {
    for (t, t2, due) in TIMEOUTS {
        assert!(rt; page.set_before(t, t2) == due, "{t} {t2}");
    }
    assert!(rt; page.fired_with(2) == [2, 1].as_slice());
    assert!(rt; page.fired_with(3).is_empty());
    assert!(rt; page.fired_with(99).is_empty());
}

/// What the event of an action is.
static EVENTS: [(u32, Option<Begun>); 10] = [
    (0, Some(Begun::Parse)),
    (1, Some(Begun::Parse)),
    (3, Some(Begun::Exec)),
    (4, Some(Begun::Timer)),
    (6, Some(Begun::Tick)),
    (7, Some(Begun::Begin)),
    (14, Some(Begun::Handler)),
    (15, Some(Begun::Close)),
    (25, Some(Begun::Begin)),
    (26, None),
];

/// What an event of one piece is, if the action has begun.
#[tactic(auto, using(er_page::proofs::PageLemmas::event_of_itself))]
fn begun(reading: &Reading, action: u32) -> Option<Begun> {
    if action >= reading.page.actions() {
        return None;
    }
    let event = reading.page.event_of(action);
    if event != action {
        return None;
    }
    if reading.page.latest_piece(action) != action {
        return None;
    }
    Some(reading.page.begun_as(action))
}

/// The element that a parse step makes.
fn parsed(rec: &Record) -> Option<u32> {
    match rec {
        Record::Parse { element, .. } => Some(*element),
        _ => None,
    }
}

/// The element of the action, if it is a parse step.
fn element(reading: &Reading, action: u32) -> Option<u32> {
    if action >= reading.page.actions() {
        return None;
    }
    parsed(reading.page.begin_of(action))
}

fn by_action(rt: &impl Abort, reading: &Reading) {
    for (action, due) in EVENTS {
        assert!(rt; begun(reading, action) == due, "{action}");
    }
    assert!(rt; element(reading, 0) == Some(1));
    assert!(rt; element(reading, 2) == Some(3));
    assert!(rt; element(reading, 3).is_none());
}

/// How many actions have begun, the running one, and the top of the stack.
fn standing(page: &Page) -> (u32, Option<u32>, Option<u32>) {
    (page.actions(), page.running(), page.open_dispatch())
}

#[test]
fn look_ups(rt: HostRuntime) -> Result<(), Fail> {
    let mut reading = Reading::new(rt.alloc())?;
    assert!(rt; standing(&reading.page) == (0, None, None));
    let refused = read_lines(&mut reading, rt.alloc());
    assert!(rt; refused == Ok(None));
    assert!(rt; standing(&reading.page) == (26, Some(25), Some(24)));
    by_number(&rt, &reading.page);
    by_element(&rt, &reading.page);
    by_timeout(&rt, &reading.page);
    by_action(&rt, &reading);
    let_go(reading);
    Ok(())
}
