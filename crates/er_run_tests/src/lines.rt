//! Input as lines of JSON: the traces of other rows, and lines that are refused.

use crate::row::Asked;
use crate::through::{Call, SOUND, through};
use std::alloc::{AllocError, Global};
use std::thread::Threads;

static ASKED: [Asked; 7] = [
    // Two timeouts that race, with spaces in the last access.
    Asked {
        words: "jsonl",
        input: "[\"webtrace\",1]\n[\"parse\",0,1,\"inline\"]\n[\"exec\",1]\n[\"set\",1,10]\n[\"set\",2,0]\n[\"timer\",2]\n[\"w\",\"var\",0,\"x\"]\n[\"timer\",1]\n[ \"r\", \"var\", 0, \"x\" ]\n[\"end\"]\n",
        written: "report 1\nrace 1 7 9 wr 2 3 var 0 x\ncover 1 1\ngroup 1 1 1\nactions 4\naccesses 2\npairs 1\nraces 1\ngroups 1\nchains 2\nlinks 3\nend\n",
        status: 1,
        compares: 1,
    },
    // The same with an escape in the name.
    Asked {
        words: "jsonl --shards 2",
        input: "[\"webtrace\",1]\n[\"parse\",0,1,\"inline\"]\n[\"exec\",1]\n[\"set\",1,10]\n[\"set\",2,0]\n[\"timer\",2]\n[\"w\",\"var\",0,\"a\\u0020b\"]\n[\"timer\",1]\n[ \"r\", \"var\", 0, \"a\\u0020b\" ]\n[\"end\"]\n",
        written: "report 1\nrace 1 7 9 wr 2 3 var 0 a%20b\ncover 1 1\ngroup 1 1 1\nactions 4\naccesses 2\npairs 1\nraces 1\ngroups 1\nchains 2\nlinks 3\nend\n",
        status: 1,
        compares: 1,
    },
    // Timeouts of one delay, set in two actions that are in order: in version 1 their callbacks are
    // in none, in version 2 they are.
    Asked {
        words: "jsonl",
        input: "[\"webtrace\",1]\n[\"parse\",0,1,\"plain\"]\n[\"set\",1,5]\n[\"parse\",0,2,\"plain\"]\n[\"set\",2,5]\n[\"timer\",1]\n[\"w\",\"var\",0,\"x\"]\n[\"timer\",2]\n[\"r\",\"var\",0,\"x\"]\n[\"end\"]\n",
        written: "report 1\nrace 1 7 9 wr 2 3 var 0 x\ncover 1 1\ngroup 1 1 1\nactions 4\naccesses 2\npairs 1\nraces 1\ngroups 1\nchains 2\nlinks 3\nend\n",
        status: 1,
        compares: 1,
    },
    Asked {
        words: "jsonl",
        input: "[\"webtrace\",2]\n[\"parse\",0,1,\"plain\"]\n[\"set\",1,5]\n[\"parse\",0,2,\"plain\"]\n[\"set\",2,5]\n[\"timer\",1]\n[\"w\",\"var\",0,\"x\"]\n[\"timer\",2]\n[\"r\",\"var\",0,\"x\"]\n[\"end\"]\n",
        written: "report 1\nactions 4\naccesses 2\npairs 1\nraces 0\ngroups 0\nchains 2\nlinks 4\nend\n",
        status: 0,
        compares: 1,
    },
    // A number with a point.
    Asked {
        words: "jsonl",
        input: "[\"webtrace\",1]\n[\"parse\",0,1,\"plain\"]\n[\"set\",1,7.0]\n[\"end\"]\n",
        written: "refused 3 bad-record\n",
        status: 3,
        compares: 0,
    },
    Asked {
        words: "jsonl",
        input: "[\"webtrace\",1]\n",
        written: "refused 2 no-end\n",
        status: 3,
        compares: 0,
    },
    Asked {
        words: "jsonl --json",
        input: "webtrace 1\nend\n",
        written: "{\"refused\":{\"cause\":\"bad-header\",\"line\":1}}\n",
        status: 3,
        compares: 0,
    },
];

#[test]
fn lines_of_json(rt: HostRuntime) {
    for asked in &ASKED {
        let done = asked.answer(&rt, rt.alloc());
        assert!(rt;
            done.is_ok_and(|done| asked.is_due(&done)),
            "{}",
            asked.input
        );
    }
}

/// Whether the answer is due where a read gives one byte.
fn is_due_byte_by_byte(
    rt: &(impl Threads + Sync),
    alloc: Global,
    asked: &Asked,
) -> Result<bool, AllocError> {
    let call = Call {
        words: asked.words,
        input: asked.input,
        chunk: 1,
        ..SOUND
    };
    let done = through(rt, alloc, &call, asked.written)?;
    Ok(asked.is_due(&done))
}

#[test]
fn lines_of_json_byte_by_byte(rt: HostRuntime) {
    for asked in &ASKED {
        let due = is_due_byte_by_byte(&rt, rt.alloc(), asked);
        assert!(rt; due == Ok(true), "{}", asked.input);
    }
}

/// Whether a line of so many spaces behind the first line is refused so.
fn are_refused(
    rt: &(impl Threads + Sync),
    alloc: Global,
    spaces: usize,
    written: &str,
) -> Result<bool, AllocError> {
    let mut input = String::from_str(alloc, "[\"webtrace\",1]\n")?;
    for _ in 0..spaces {
        input.push(' ')?;
    }
    let call = Call {
        words: "jsonl",
        input: &input,
        ..SOUND
    };
    let done = through(rt, alloc, &call, written)?;
    Ok(done.is_whole(3))
}

#[test]
fn lines_at_the_limit(rt: HostRuntime) {
    for (spaces, written) in [
        (4096, "refused 2 no-end\n"),
        (4097, "refused 2 long-line\n"),
    ] {
        let refused = are_refused(&rt, rt.alloc(), spaces, written);
        assert!(rt; refused == Ok(true), "{spaces}");
    }
}
