//! The look-ups of messages, animation callbacks and jobs over one list.

use crate::letting_go::let_go;
use crate::reading::Reading;
use er_page::page::Page;
use er_text::Cause;
use er_trace::fault::LineFault;
use er_trace::record::Record;
use std::alloc::Global;
use std::process::Abort;
use std::test::Fail;

/// Lines, with the action that each begins.
static LINES: [&str; 28] = [
    "parse 0 1 plain", // 0
    "post 1",
    "post 2",
    "ask 1",
    "queue 1",
    "queue 2",
    "on 7",
    "on 8",
    "job 1", // 1
    "queue 3",
    "message 2", // 2
    "post 3",
    "anim 1", // 3
    "job 2", // 4
    "fire 1 1 a", // 5
    "run 1 0 7", // 6
    "queue 4",
    "queue 6",
    "job 4", // 7
    "inline 2 1 b", // 8
    "close 2", // 9
    "back 2", // 10
    "job 6", // 11
    "run 1 0 8", // 12
    "close 1", // 13
    "job 3", // 14
    "post 4",
    "message 4", // 15
];

/// Reads the lines, up to the first that is refused.
fn read_lines(reading: &mut Reading, alloc: Global) -> Result<Option<Cause>, LineFault> {
    for line in LINES {
        let refused = reading.read(alloc, line)?;
        if refused.is_some() {
            return Ok(refused);
        }
    }
    Ok(None)
}

/// A look-up by one number.
#[derive(Clone, Copy, Debug)]
enum Ask {
    MessagePiece,
    MessageEvent,
    AnimPiece,
    AnimEvent,
    JobPiece,
    JobEvent,
}

/// Number 99 is never declared.
static ROWS: [(Ask, u32, Option<u32>); 19] = [
    (Ask::MessagePiece, 1, Some(0)),
    (Ask::MessagePiece, 3, Some(2)),
    (Ask::MessagePiece, 4, Some(14)),
    (Ask::MessagePiece, 99, None),
    (Ask::MessageEvent, 2, Some(2)),
    (Ask::MessageEvent, 4, Some(15)),
    (Ask::MessageEvent, 1, None),
    (Ask::MessageEvent, 99, None),
    (Ask::AnimPiece, 1, Some(0)),
    (Ask::AnimPiece, 2, None),
    (Ask::AnimEvent, 1, Some(3)),
    (Ask::AnimEvent, 99, None),
    (Ask::JobPiece, 1, Some(0)),
    (Ask::JobPiece, 3, Some(1)),
    (Ask::JobPiece, 99, None),
    (Ask::JobEvent, 4, Some(7)),
    (Ask::JobEvent, 6, Some(11)),
    (Ask::JobEvent, 3, Some(14)),
    (Ask::JobEvent, 99, None),
];

fn answer(page: &Page, ask: Ask, number: u32) -> Option<u32> {
    match ask {
        Ask::MessagePiece => page.message_piece(number),
        Ask::MessageEvent => page.message_event(number),
        Ask::AnimPiece => page.anim_piece(number),
        Ask::AnimEvent => page.anim_event(number),
        Ask::JobPiece => page.job_piece(number),
        Ask::JobEvent => page.job_event(number),
    }
}

fn by_number(rt: &impl Abort, page: &Page) {
    for (ask, number, due) in &ROWS {
        assert!(rt; answer(page, *ask, *number) == *due, "{ask:?} {number}");
    }
}

fn in_order(rt: &impl Abort, page: &Page) {
    assert!(rt; page.messages() == [2, 4].as_slice());
    assert!(rt; page.anims() == [1].as_slice());
    assert!(rt; page.jobs() == [1, 2, 4, 6, 3].as_slice());
    assert!(rt; page.jobs_queued(0) == [1, 4].as_slice());
    assert!(rt; page.jobs_queued(1) == [14].as_slice());
    assert!(rt; page.jobs_queued(6) == [7, 11].as_slice());
    assert!(rt; page.jobs_queued(7).is_empty());
    assert!(rt; page.jobs_in(1) == [7, 11].as_slice());
    assert!(rt; page.jobs_in(2).is_empty());
    assert!(rt; page.jobs_in(99).is_empty());
}

/// A note, by what it declares.
#[derive(Clone, Copy)]
enum Note {
    Post(u32),
    Ask(u32),
    Queue(u32),
}

fn note_of(note: Note) -> Record {
    match note {
        Note::Post(message) => Record::Post { message },
        Note::Ask(anim) => Record::Ask { anim },
        Note::Queue(job) => Record::Queue { job },
    }
}

/// Two notes, and whether the first declares its number in an earlier line.
static NOTES: [(Note, Note, bool); 8] = [
    (Note::Post(1), Note::Post(2), true),
    (Note::Post(2), Note::Post(1), false),
    (Note::Post(2), Note::Post(2), false),
    (Note::Post(2), Note::Post(99), false),
    (Note::Post(99), Note::Post(2), false),
    (Note::Ask(1), Note::Queue(3), false),
    (Note::Queue(1), Note::Queue(4), true),
    (Note::Queue(6), Note::Queue(3), false),
];

/// The end of a record is long to prove. A note has nothing to let go.
fn is_before(page: &Page, first: Note, second: Note) -> bool {
    let first = note_of(first);
    let second = note_of(second);
    let before = page.declared_before(&first, &second);
    std::mem::forget(first);
    std::mem::forget(second);
    before
}

fn by_notes(rt: &impl Abort, page: &Page) {
    for (first, second, due) in &NOTES {
        assert!(rt; is_before(page, *first, *second) == *due);
    }
}

/// From where on those before it were declared in its piece before it.
fn runs(rt: &impl Abort, page: &Page) {
    let mut found = [0; 5];
    for (place, job) in page.begun_jobs().iter().enumerate() {
        if let Some(slot) = found.get_mut(place) {
            *slot = job.run;
        }
    }
    assert!(rt; found == [0, 0, 2, 2, 4]);
    assert!(rt; page.begun_jobs_of(6).len() == 2);
    assert!(rt; page.begun_jobs_of(7).is_empty());
    assert!(rt; page.begun_messages().len() == 2);
    assert!(rt; page.begun_anims().len() == 1);
}

fn tasks(rt: &impl Abort, page: &Page) {
    assert!(rt;
        page.message(2)
            .is_some_and(|task| task.maker == 0 && task.rank == 1)
    );
    assert!(rt; page.anim(1).is_some_and(|task| task.piece == 0));
    assert!(rt;
        page.job(4)
            .is_some_and(|task| task.maker == 6 && task.rank == 3)
    );
    assert!(rt; page.message(99).is_none());
    assert!(rt; page.anim(99).is_none());
    assert!(rt; page.job(99).is_none());
}

#[test]
fn task_look_ups(rt: HostRuntime) -> Result<(), Fail> {
    let mut reading = Reading::new(rt.alloc())?;
    let refused = read_lines(&mut reading, rt.alloc());
    assert!(rt; refused == Ok(None));
    by_number(&rt, &reading.page);
    in_order(&rt, &reading.page);
    by_notes(&rt, &reading.page);
    runs(&rt, &reading.page);
    tasks(&rt, &reading.page);
    let_go(reading);
    Ok(())
}
