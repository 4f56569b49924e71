//! Rows at the limits on candidate pairs, races and classes, which are asked at the `end` line.

use crate::inputs::Lines::{Reader, Set, Step, Timer, Writer};
use crate::inputs::Part::{self, Down, Text, Up};
use crate::inputs::input_of;
use crate::row::{Counts, report};
use crate::through::{Call, SOUND, Written, through};
use std::alloc::{AllocError, Global};
use std::thread::Threads;

/// Parse steps, and how many of what there is. None race.
struct Ordered {
    parts: &'static [Part],
    counts: Counts,
}

static ORDERED: [Ordered; 2] = [
    // as many pairs as may be: each step writes one variable
    Ordered {
        parts: &[Up(Writer, 1, 5793), Text("end\n")],
        counts: Counts {
            actions: 5793,
            accesses: 5793,
            pairs: 16_776_528,
            races: 0,
            groups: 0,
            chains: 1,
            links: 5792,
        },
    },
    // pairs far apart: over the links a path would be long
    Ordered {
        parts: &[
            Up(Reader, 1, 8000),
            Up(Step, 8001, 14_584),
            Up(Writer, 14_585, 16_384),
            Text("end\n"),
        ],
        counts: Counts {
            actions: 16_384,
            accesses: 9800,
            pairs: 16_019_100,
            races: 0,
            groups: 0,
            chains: 1,
            links: 16_383,
        },
    },
];

/// Whether each candidate pair costs one comparison, and none is a race.
fn is_ordered(
    rt: &(impl Threads + Sync),
    alloc: Global,
    row: &Ordered,
) -> Result<bool, AllocError> {
    let input = input_of(alloc, row.parts)?;
    let due = report(alloc, "", "", &row.counts)?;
    let call = Call {
        input: &input,
        ..SOUND
    };
    let done = through(rt, alloc, &call, &due)?;
    Ok(done.is_whole(0) & (done.compares == row.counts.pairs))
}

#[test]
fn as_many_pairs_as_may_be(rt: HostRuntime) {
    for row in &ORDERED {
        let ordered = is_ordered(&rt, rt.alloc(), row);
        assert!(rt; ordered == Ok(true), "{}", row.counts.actions);
    }
}

/// The begin of an input whose timeouts fire against the order in which they were set, each with a
/// delay that is less.
const SCRIPT: Part = Text("parse 0 1 inline\nexec 1\n");

/// Inputs over a limit, and the refusal, which a byte behind the `end` line does not change.
static REFUSED: [(&[Part], &str); 7] = [
    (
        &[Up(Writer, 1, 5794), Text("end\n")],
        "refused 11590 too-many-pairs\n",
    ),
    (
        &[Up(Writer, 1, 5794), Text("end\nend\n")],
        "refused 11590 too-many-pairs\n",
    ),
    (
        &[SCRIPT, Up(Set, 1, 257), Down(Timer, 1, 257), Text("end\n")],
        "refused 775 too-many-classes\n",
    ),
    (
        &[
            SCRIPT,
            Up(Set, 1, 257),
            Down(Timer, 1, 257),
            Text("end\nend\n"),
        ],
        "refused 775 too-many-classes\n",
    ),
    (
        &[SCRIPT, Up(Set, 1, 725), Down(Timer, 1, 725), Text("end\n")],
        "refused 2179 too-many-races\n",
    ),
    (
        &[
            SCRIPT,
            Up(Set, 1, 725),
            Down(Timer, 1, 725),
            Text("end\nw var 0 x\n"),
        ],
        "refused 2179 too-many-races\n",
    ),
    // over several limits the number of pairs decides
    (
        &[
            SCRIPT,
            Up(Set, 1, 5794),
            Down(Timer, 1, 5794),
            Text("end\n"),
        ],
        "refused 17386 too-many-pairs\n",
    ),
];

/// How many reads give the text.
fn reads_for(text: &str) -> u32 {
    u32::try_from(text.len().div_ceil(4096)).unwrap_or(u32::MAX)
}

/// Whether the input is refused with the read that brings its last line, and no read
/// comes behind it.
fn is_refused(
    rt: &(impl Threads + Sync),
    alloc: Global,
    parts: &[Part],
    due: &str,
) -> Result<bool, AllocError> {
    let input = input_of(alloc, parts)?;
    let reads = reads_for(&input);
    let call = Call {
        input: &input,
        ..SOUND
    };
    let done = through(rt, alloc, &call, due)?;
    Ok(done.is(3, Written::Whole, (reads, 1)))
}

#[test]
fn one_too_many(rt: HostRuntime) {
    for (parts, due) in &REFUSED {
        let refused = is_refused(&rt, rt.alloc(), parts, due);
        assert!(rt; refused == Ok(true), "{due}");
    }
}

/// How many timeouts fire against the order in which they were set, so that each races with each
/// other, the words of the command, and the counts. No race covers another: each is a class, and
/// each class a group.
static APART: [(u32, &str, Counts); 4] = [
    (
        181,
        "",
        Counts {
            actions: 183,
            accesses: 181,
            pairs: 16_290,
            races: 16_290,
            groups: 16_290,
            chains: 181,
            links: 182,
        },
    ),
    (
        182,
        "",
        Counts {
            actions: 184,
            accesses: 182,
            pairs: 16_471,
            races: 16_471,
            groups: 16_471,
            chains: 182,
            links: 183,
        },
    ),
    (
        256,
        "",
        Counts {
            actions: 258,
            accesses: 256,
            pairs: 32_640,
            races: 32_640,
            groups: 32_640,
            chains: 256,
            links: 257,
        },
    ),
    (
        256,
        "--shards 64",
        Counts {
            actions: 258,
            accesses: 256,
            pairs: 32_640,
            races: 32_640,
            groups: 32_640,
            chains: 256,
            links: 257,
        },
    ),
];

fn put_races(text: &mut String, count: u32) -> Result<(), AllocError> {
    let count = u64::from(count);
    let mut number = 0u32;
    for first in 2..count + 2 {
        for second in first + 1..count + 2 {
            number = number.saturating_add(1);
            write!(
                text,
                "race {number} {} {} ww {first} {second} var 0 x\n",
                count + 1 + 2 * first,
                count + 1 + 2 * second
            )?;
        }
    }
    Ok(())
}

fn put_groups(text: &mut String, groups: u64) -> Result<(), AllocError> {
    for number in 1..=groups {
        write!(text, "cover {number} {number}\n")?;
    }
    for number in 1..=groups {
        write!(text, "group {number} {number} 1\n")?;
    }
    Ok(())
}

/// The report of so many timeouts.
fn report_of(alloc: Global, count: u32, counts: &Counts) -> Result<String, AllocError> {
    let mut races = String::new(alloc);
    put_races(&mut races, count)?;
    let mut groups = String::new(alloc);
    put_groups(&mut groups, counts.groups)?;
    report(alloc, &races, &groups, counts)
}

/// Whether the report comes, by one comparison a pair, at most four for each class and group, one
/// read for each 4,096 bytes and one that gives nothing, and at most one write for each 4,096 bytes
/// and one more.
fn is_each_a_group(
    rt: &(impl Threads + Sync),
    alloc: Global,
    count: u32,
    words: &str,
    counts: &Counts,
) -> Result<bool, AllocError> {
    let input = input_of(
        alloc,
        &[
            SCRIPT,
            Up(Set, 1, count),
            Down(Timer, 1, count),
            Text("end\n"),
        ],
    )?;
    let due = report_of(alloc, count, counts)?;
    let call = Call {
        words,
        input: &input,
        taken: 65_536,
        room: 4_000_000,
        ..SOUND
    };
    let done = through(rt, alloc, &call, &due)?;
    let most = counts.races.saturating_mul(counts.groups).saturating_mul(4);
    let reads = reads_for(&input).saturating_add(1);
    let (_, writes) = done.calls;
    Ok(
        done.is(1, Written::Whole, (reads, writes))
            && writes as usize <= due.len() / 4096 + 1
            && done.compares == counts.pairs
            && done.tests <= most,
    )
}

#[test]
fn each_race_a_group(rt: HostRuntime) {
    for (count, words, counts) in &APART {
        let same = is_each_a_group(&rt, rt.alloc(), *count, words, counts);
        assert!(rt; same == Ok(true), "{count} {words}");
    }
}
