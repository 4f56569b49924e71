//! Failing reads and writes, how many calls come, and memory that runs out.

use crate::through::{Call, SOUND, Written, through};
use er_run::outcome::Outcome;
use std::alloc::{AllocError, Global};
use std::thread::Threads;

const TIMEOUTS: &str =
    "webtrace 1\nparse 0 1 plain\nset 1 10\nset 2 0\ntimer 2\nw var 0 x\ntimer 1\nr var 0 x\nend\n";

const REPORT: &str =
    "report 1\nrace 1 6 8 wr 1 2 var 0 x\ncover 1 1\ngroup 1 1 1\nactions 3\naccesses 2\npairs 1\nraces 1\ngroups 1\nchains 2\nlinks 2\nend\n";

/// Three accesses, of which two pairs race.
const THREE_ACCESSES: &str =
    "webtrace 1\nparse 0 1 plain\nset 1 10\nset 2 0\ntimer 2\nr var 0 x\nr var 0 x\nw var 0 x\ntimer 1\nw var 0 x\nend\n";

const TWO_RACES: &str =
    "report 1\nrace 1 6 10 rw 1 2 var 0 x\nrace 2 8 10 ww 1 2 var 0 x\ncover 1 1\ncover 2 1\ngroup 1 1 2\nactions 3\naccesses 3\npairs 2\nraces 2\ngroups 1\nchains 2\nlinks 2\nend\n";

const NOTHING: &str =
    "report 1\nactions 0\naccesses 0\npairs 0\nraces 0\ngroups 0\nchains 0\nlinks 0\nend\n";

const JSON: &str =
    "{\"accesses\":2,\"actions\":3,\"chains\":2,\"groups\":[{\"race\":1,\"size\":1}],\"links\":2,\"pairs\":1,\"races\":[{\"actions\":[1,2],\"group\":1,\"lines\":[6,8],\"location\":\"var 0 x\",\"modes\":\"wr\"}],\"version\":1}\n";

const GENERATED: &str =
    "generated 1\ngroup 1 1 1\ngroup 2 2 1\ngroup 3 3 1\nactions 12\naccesses 6\npairs 6\nraces 3\ngroups 3\nchains 4\nlinks 12\nend\n";

/// A call, what is due between ends that never fail, and what comes of it.
struct Row {
    call: Call<'static, 'static>,
    due: &'static str,
    written: Written,
    status: u8,
    /// How many reads come, and how many writes.
    calls: (u32, u32),
}

static ROWS: [Row; 24] = [
    // the read that gives nothing is the last
    Row {
        call: Call {
            input: TIMEOUTS,
            chunk: 1000,
            ..SOUND
        },
        due: REPORT,
        written: Written::Whole,
        status: 1,
        calls: (2, 1),
    },
    Row {
        call: Call { input: "", ..SOUND },
        due: "refused 1 no-end\n",
        written: Written::Whole,
        status: 3,
        calls: (1, 1),
    },
    // however the source cuts its bytes
    Row {
        call: Call {
            input: TIMEOUTS,
            chunk: 1,
            ..SOUND
        },
        due: REPORT,
        written: Written::Whole,
        status: 1,
        calls: (85, 1),
    },
    Row {
        call: Call {
            input: TIMEOUTS,
            chunk: 2,
            ..SOUND
        },
        due: REPORT,
        written: Written::Whole,
        status: 1,
        calls: (43, 1),
    },
    Row {
        call: Call {
            input: TIMEOUTS,
            chunk: 3,
            ..SOUND
        },
        due: REPORT,
        written: Written::Whole,
        status: 1,
        calls: (29, 1),
    },
    Row {
        call: Call {
            input: TIMEOUTS,
            chunk: 7,
            ..SOUND
        },
        due: REPORT,
        written: Written::Whole,
        status: 1,
        calls: (13, 1),
    },
    Row {
        call: Call {
            input: TIMEOUTS,
            chunk: 16,
            ..SOUND
        },
        due: REPORT,
        written: Written::Whole,
        status: 1,
        calls: (7, 1),
    },
    Row {
        call: Call {
            input: TIMEOUTS,
            chunk: 85,
            ..SOUND
        },
        due: REPORT,
        written: Written::Whole,
        status: 1,
        calls: (2, 1),
    },
    // the read of the byte that decides is the last
    Row {
        call: Call {
            input: "nonsense\nnonsense\n",
            chunk: 1,
            ..SOUND
        },
        due: "refused 1 bad-header\n",
        written: Written::Whole,
        status: 3,
        calls: (9, 1),
    },
    Row {
        call: Call {
            input: "webtrace 1\nnonsense\nnonsense\n",
            chunk: 1,
            ..SOUND
        },
        due: "refused 2 bad-record\n",
        written: Written::Whole,
        status: 3,
        calls: (20, 1),
    },
    Row {
        call: Call {
            input: "webtrace 1\ntimer 9\nnonsense\n",
            chunk: 1,
            ..SOUND
        },
        due: "refused 2 unknown\n",
        written: Written::Whole,
        status: 3,
        calls: (19, 1),
    },
    Row {
        call: Call {
            input: "webtrace 1\nend\n\nnonsense\n",
            chunk: 1,
            ..SOUND
        },
        due: "refused 3 after-end\n",
        written: Written::Whole,
        status: 3,
        calls: (16, 1),
    },
    // a generated trace takes nothing of the source
    Row {
        call: Call {
            words: "gen --number 1",
            input: "webtrace 1\n",
            ..SOUND
        },
        due: GENERATED,
        written: Written::Whole,
        status: 1,
        calls: (0, 1),
    },
    // no write is empty
    Row {
        call: Call {
            input: TIMEOUTS,
            taken: 16,
            ..SOUND
        },
        due: REPORT,
        written: Written::Whole,
        status: 1,
        calls: (2, 8),
    },
    Row {
        call: Call {
            words: "--json",
            input: TIMEOUTS,
            taken: 1,
            ..SOUND
        },
        due: JSON,
        written: Written::Whole,
        status: 1,
        calls: (2, 187),
    },
    Row {
        call: Call {
            input: "nonsense\n",
            taken: 7,
            ..SOUND
        },
        due: "refused 1 bad-header\n",
        written: Written::Whole,
        status: 3,
        calls: (1, 3),
    },
    // a read fails
    Row {
        call: Call {
            input: TIMEOUTS,
            chunk: 16,
            failing_read: Some(2),
            ..SOUND
        },
        due: REPORT,
        written: Written::Front(0),
        status: 4,
        calls: (2, 0),
    },
    // a read where the input would have ended
    Row {
        call: Call {
            input: TIMEOUTS,
            chunk: 1000,
            failing_read: Some(2),
            ..SOUND
        },
        due: REPORT,
        written: Written::Front(0),
        status: 4,
        calls: (2, 0),
    },
    Row {
        call: Call {
            input: "",
            failing_read: Some(1),
            ..SOUND
        },
        due: "refused 1 no-end\n",
        written: Written::Front(0),
        status: 4,
        calls: (1, 0),
    },
    // a write fails
    Row {
        call: Call {
            input: "webtrace 1\nend\n",
            failing_write: Some(1),
            ..SOUND
        },
        due: NOTHING,
        written: Written::Front(0),
        status: 5,
        calls: (2, 1),
    },
    // with little room a front is written
    Row {
        call: Call {
            input: TIMEOUTS,
            room: 12,
            ..SOUND
        },
        due: REPORT,
        written: Written::Front(12),
        status: 5,
        calls: (2, 2),
    },
    Row {
        call: Call {
            input: "nonsense\n",
            room: 12,
            ..SOUND
        },
        due: "refused 1 bad-header\n",
        written: Written::Front(12),
        status: 5,
        calls: (1, 2),
    },
    // a line is cut as any text
    Row {
        call: Call {
            words: "--json",
            input: TIMEOUTS,
            taken: 16,
            failing_write: Some(3),
            ..SOUND
        },
        due: JSON,
        written: Written::Front(32),
        status: 5,
        calls: (2, 3),
    },
    Row {
        call: Call {
            words: "gen --number 1",
            taken: 16,
            failing_write: Some(3),
            ..SOUND
        },
        due: GENERATED,
        written: Written::Front(32),
        status: 5,
        calls: (0, 3),
    },
];

/// Whether this comes of the call, and no call behind one that fails.
fn comes(rt: &(impl Threads + Sync), alloc: Global, row: &Row) -> Result<bool, AllocError> {
    let done = through(rt, alloc, &row.call, row.due)?;
    Ok(done.is(row.status, row.written, row.calls))
}

#[test]
fn calls_of_the_ends(rt: HostRuntime) {
    for row in &ROWS {
        let came = comes(&rt, rt.alloc(), row);
        assert!(rt; came == Ok(true), "{} {}", row.call.words, row.call.input);
    }
}

#[test]
fn lines_on_standard_error(rt: HostRuntime) {
    for (outcome, line) in [
        (Outcome::ReadFault, "er_cli: input could not be read"),
        (Outcome::WriteFault, "er_cli: output could not be written"),
    ] {
        assert!(rt; outcome.line() == Some(line));
    }
}

/// Whether the report came, or nothing for out of memory.
fn is_report_or_nothing(
    rt: &(impl Threads + Sync),
    alloc: Global,
    call: &Call<'_, '_>,
    report: &str,
) -> Result<bool, AllocError> {
    let done = through(rt, alloc, call, report)?;
    Ok(match done.outcome {
        Outcome::NoMemory => done.written == Written::Front(0),
        Outcome::Races => done.written == Written::Whole,
        _ => false,
    })
}

/// Whichever allocation fails, the answer is out of memory and nothing written, or the report.
#[test]
fn want_of_memory(rt: HostRuntime) {
    for (input, report) in [(TIMEOUTS, REPORT), (THREE_ACCESSES, TWO_RACES)] {
        let call = Call { input, ..SOUND };
        let right = is_report_or_nothing(&rt, rt.alloc(), &call, report);
        assert!(rt; right != Ok(false));
    }
}
