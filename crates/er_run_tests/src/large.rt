//! Rows at a limit: of lines, of a line's length, of actions, of inline dispatches, and
//! of accesses.

use crate::inputs::Lines::{Back, Inline, Letter, Read, Step, Variable};
use crate::inputs::Part::{self, Down, Text, Up};
use crate::inputs::input_of;
use crate::through::{Call, SOUND, through};
use std::alloc::{AllocError, Global};
use std::thread::Threads;

/// The most lines of a trace.
const MOST_LINES: u32 = 2_097_152;

/// The most actions of a trace.
const MOST_ACTIONS: u32 = 32_768;

/// The most kept accesses.
const MOST_ACCESSES: u32 = 1_048_576;

/// The most inline dispatches on the stack.
const MOST_INLINE: u32 = 256;

/// The parts of an input, the most bytes that a read gives, one call for each, and the
/// answer with its status.
struct Row {
    parts: &'static [Part],
    chunks: &'static [u32],
    written: &'static str,
    status: u8,
}

static ROWS: [Row; 11] = [
    // lines
    Row {
        parts: &[
            Text("parse 0 1 plain\n"),
            Up(Read, 1, MOST_LINES - 3),
            Text("end\n"),
        ],
        chunks: &[1, 4096],
        written: "report 1\nactions 1\naccesses 1\npairs 0\nraces 0\ngroups 0\nchains 1\nlinks 0\nend\n",
        status: 0,
    },
    Row {
        parts: &[Text("parse 0 1 plain\n"), Up(Read, 1, MOST_LINES - 1)],
        chunks: &[1, 4096],
        written: "refused 2097153 too-many-lines\n",
        status: 3,
    },
    // bytes of a line
    Row {
        parts: &[Up(Letter, 1, 1024), Text("\nend\n")],
        chunks: &[1, 4096],
        written: "refused 2 bad-record\n",
        status: 3,
    },
    Row {
        parts: &[Up(Letter, 1, 1025), Text("\nend\n")],
        chunks: &[1, 4096],
        written: "refused 2 long-line\n",
        status: 3,
    },
    // actions
    Row {
        parts: &[Up(Step, 1, MOST_ACTIONS), Text("end\n")],
        chunks: &[4096],
        written: "report 1\nactions 32768\naccesses 0\npairs 0\nraces 0\ngroups 0\nchains 1\nlinks 32767\nend\n",
        status: 0,
    },
    Row {
        parts: &[Up(Step, 1, MOST_ACTIONS + 1), Text("end\n")],
        chunks: &[4096],
        written: "refused 32770 too-many-actions\n",
        status: 3,
    },
    // inline dispatches on the stack
    Row {
        parts: &[
            Text("parse 0 1 inline\nexec 1\non 1\n"),
            Up(Inline, 1, MOST_INLINE),
            Text("end\n"),
        ],
        chunks: &[4096],
        written: "report 1\nactions 514\naccesses 0\npairs 0\nraces 0\ngroups 0\nchains 1\nlinks 513\nend\n",
        status: 0,
    },
    Row {
        parts: &[
            Text("parse 0 1 inline\nexec 1\non 1\n"),
            Up(Inline, 1, MOST_INLINE),
            Text("inline 257 1 a\nend\n"),
        ],
        chunks: &[4096],
        written: "refused 517 too-deep\n",
        status: 3,
    },
    // closed from the inside
    Row {
        parts: &[
            Text("parse 0 1 inline\nexec 1\non 1\n"),
            Up(Inline, 1, MOST_INLINE),
            Down(Back, 1, MOST_INLINE),
            Text("end\n"),
        ],
        chunks: &[4096],
        written: "report 1\nactions 1026\naccesses 0\npairs 0\nraces 0\ngroups 0\nchains 1\nlinks 1025\nend\n",
        status: 0,
    },
    // kept accesses
    Row {
        parts: &[
            Text("parse 0 1 plain\n"),
            Up(Variable, 1, MOST_ACCESSES),
            Text("r var 1 x\nend\n"),
        ],
        chunks: &[4096],
        written: "report 1\nactions 1\naccesses 1048576\npairs 0\nraces 0\ngroups 0\nchains 1\nlinks 0\nend\n",
        status: 0,
    },
    Row {
        parts: &[
            Text("parse 0 1 plain\n"),
            Up(Variable, 1, MOST_ACCESSES + 1),
        ],
        chunks: &[4096],
        written: "refused 1048579 too-many-accesses\n",
        status: 3,
    },
];

/// Whether the answer comes, where a read gives at most so many bytes.
fn is_answered(
    rt: &(impl Threads + Sync),
    alloc: Global,
    row: &Row,
    chunk: u32,
) -> Result<bool, AllocError> {
    let input = input_of(alloc, row.parts)?;
    let call = Call {
        input: &input,
        chunk,
        ..SOUND
    };
    let done = through(rt, alloc, &call, row.written)?;
    Ok(done.is_whole(row.status))
}

#[test]
fn as_many_as_may_be_and_one_more(rt: HostRuntime) {
    for row in &ROWS {
        for chunk in row.chunks {
            let answered = is_answered(&rt, rt.alloc(), row, *chunk);
            assert!(rt; answered == Ok(true), "{}", row.written);
        }
    }
}
