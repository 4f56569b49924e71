//! What the words ask for: reports and refusals as lines of JSON, summaries of generated traces,
//! and wrong usage.

use crate::row::Asked;
use crate::through::{Call, SOUND, Written, through};
use std::alloc::{AllocError, Global};
use std::thread::Threads;

/// A trace of one race.
pub(crate) const TIMEOUTS: &str =
    "webtrace 1\nparse 0 1 inline\nexec 1\nset 1 10\nset 2 0\ntimer 2\nw var 0 x\ntimer 1\nr var 0 x\nend\n";

/// A trace whose script runs too late.
const TOO_LATE: &str = "webtrace 1\nparse 0 1 sync\nparse 0 2 plain\nexec 1\nend\n";

static ASKED: [Asked; 12] = [
    Asked {
        words: "check",
        input: "webtrace 1\nend\n",
        written: "report 1\nactions 0\naccesses 0\npairs 0\nraces 0\ngroups 0\nchains 0\nlinks 0\nend\n",
        status: 0,
        compares: 0,
    },
    Asked {
        words: "check",
        input: TOO_LATE,
        written: "refused 4 out-of-order\n",
        status: 3,
        compares: 0,
    },
    Asked {
        words: "--json",
        input: "webtrace 1\nend\n",
        written: "{\"accesses\":0,\"actions\":0,\"chains\":0,\"groups\":[],\"links\":0,\"pairs\":0,\"races\":[],\"version\":1}\n",
        status: 0,
        compares: 0,
    },
    Asked {
        words: "--json",
        input: TIMEOUTS,
        written: "{\"accesses\":2,\"actions\":4,\"chains\":2,\"groups\":[{\"race\":1,\"size\":1}],\"links\":3,\"pairs\":1,\"races\":[{\"actions\":[2,3],\"group\":1,\"lines\":[7,9],\"location\":\"var 0 x\",\"modes\":\"wr\"}],\"version\":1}\n",
        status: 1,
        compares: 1,
    },
    // JSON escapes the quote and the backslash, and the trace has escaped the space
    Asked {
        words: "--json",
        input: "webtrace 1\nparse 0 1 inline\nexec 1\nset 1 10\nset 2 0\ntimer 2\nw elem 3 \"a\\\\b%20\ntimer 1\nr elem 3 \"a\\\\b%20\nend\n",
        written: "{\"accesses\":2,\"actions\":4,\"chains\":2,\"groups\":[{\"race\":1,\"size\":1}],\"links\":3,\"pairs\":1,\"races\":[{\"actions\":[2,3],\"group\":1,\"lines\":[7,9],\"location\":\"elem 3 \\\"a\\\\\\\\b%20\",\"modes\":\"wr\"}],\"version\":1}\n",
        status: 1,
        compares: 1,
    },
    Asked {
        words: "check --json",
        input: TOO_LATE,
        written: "{\"refused\":{\"cause\":\"out-of-order\",\"line\":4}}\n",
        status: 3,
        compares: 0,
    },
    Asked {
        words: "--json check",
        input: "webtrace 9\nend\n",
        written: "{\"refused\":{\"cause\":\"bad-header\",\"line\":1}}\n",
        status: 3,
        compares: 0,
    },
    Asked {
        words: "gen --number 1",
        input: "nonsense",
        written: "generated 1\ngroup 1 1 1\ngroup 2 2 1\ngroup 3 3 1\nactions 12\naccesses 6\npairs 6\nraces 3\ngroups 3\nchains 4\nlinks 12\nend\n",
        status: 1,
        compares: 6,
    },
    Asked {
        words: "--number 2 gen",
        input: "",
        written: "generated 2\ngroup 1 3 2\ngroup 2 4 2\ngroup 3 5 1\nactions 20\naccesses 10\npairs 20\nraces 5\ngroups 3\nchains 4\nlinks 20\nend\n",
        status: 1,
        compares: 20,
    },
    Asked {
        words: "check --shards 64",
        input: "webtrace 1\nend\n",
        written: "report 1\nactions 0\naccesses 0\npairs 0\nraces 0\ngroups 0\nchains 0\nlinks 0\nend\n",
        status: 0,
        compares: 0,
    },
    Asked {
        words: "gen --number 1 --shards 3",
        input: "",
        written: "generated 1\ngroup 1 1 1\ngroup 2 2 1\ngroup 3 3 1\nactions 12\naccesses 6\npairs 6\nraces 3\ngroups 3\nchains 4\nlinks 12\nend\n",
        status: 1,
        compares: 6,
    },
    Asked {
        words: "gen --number 1500",
        input: "",
        written: "generated 1500\ngroup 1 2999 1500\ngroup 2 3000 1500\ngroup 3 3001 1\nactions 12004\naccesses 6002\npairs 10125751\nraces 3001\ngroups 3\nchains 4\nlinks 12004\nend\n",
        status: 1,
        compares: 10_125_751,
    },
];

static USAGE: [&str; 24] = [
    "check check",
    "nonsense",
    "check --number 5",
    "jsonl --number 5",
    "jsonl --race 1",
    "gen",
    "gen --json",
    "gen --number 0",
    "gen --number 1501",
    "gen --number 08",
    "gen --number 5 --json",
    "--json --json",
    "--shards 0",
    "--shards 65",
    "--shards 08",
    "--help",
    "schedule",
    "schedule --race 0",
    "schedule --race 262145",
    "schedule --race 1 --json",
    "explain",
    "explain --from 0",
    "explain --to 0",
    "explain --from 0 --to 1 --shards 1",
];

#[test]
fn commands(rt: HostRuntime) {
    for asked in &ASKED {
        let done = asked.answer(&rt, rt.alloc());
        assert!(rt;
            done.is_ok_and(|done| asked.is_due(&done)),
            "{}",
            asked.words
        );
    }
}

/// What is written on standard error.
const LINE: &str =
    "usage: er_cli [check|gen|schedule|explain|jsonl] [--shards N] [--json] [--number N] [--race N] [--from N] [--to N]";

/// Whether the words ask for nothing: nothing is read or written, and the line says what
/// may be asked.
fn is_usage(rt: &(impl Threads + Sync), alloc: Global, words: &str) -> Result<bool, AllocError> {
    let call = Call {
        words,
        input: TIMEOUTS,
        ..SOUND
    };
    let done = through(rt, alloc, &call, "")?;
    Ok(done.is(2, Written::Whole, (0, 0)) && done.outcome.line() == Some(LINE))
}

#[test]
fn wrong_usage(rt: HostRuntime) {
    for words in &USAGE {
        let usage = is_usage(&rt, rt.alloc(), words);
        assert!(rt; usage == Ok(true), "{words}");
    }
}
