//! Shards: the realistic load in any number of them, held and counted, and how many each command
//! uses.

use crate::gates::{Counting, Holding};
use crate::realistic::{call_of_load, is_right, load_through};
use crate::row::Asked;
use crate::through::{Call, Done, through_gate};
use crate::words::TIMEOUTS;
use er_shard::{FreeGate, Gate};
use std::alloc::{AllocError, Global};

/// The load in this number of shards.
fn in_shards<R: Gate + Sync>(rt: &R, alloc: Global, shards: u32) -> Result<Done, AllocError> {
    let words = format!(in alloc; "--shards {shards}")?;
    let call = Call {
        words: &words,
        ..call_of_load()
    };
    load_through(rt, alloc, &call)
}

/// Each of two shards waits for the other, whichever is held: they run in parallel.
#[test]
fn two_shards_at_once(rt: HostRuntime) {
    for held in [0, 1] {
        let gate = Holding::new(&rt, held);
        let done = in_shards(&gate, rt.alloc(), 2);
        assert!(rt; is_right(done), "{held}");
        assert!(rt; gate.saw_both(), "{held}");
    }
}

/// Once to list its races, and once to name their groups.
#[test]
fn each_shard_enters_twice(rt: HostRuntime) {
    let gate = Counting::new(&rt);
    let done = in_shards(&gate, rt.alloc(), 2);
    assert!(rt; is_right(done));
    assert!(rt; gate.counts() == (2, 2));
}

/// The report and the comparisons are those of one shard.
#[test]
fn any_number_of_shards(rt: HostRuntime) {
    for shards in 1..=64 {
        let done = in_shards(&FreeGate { rt: &rt }, rt.alloc(), shards);
        assert!(rt; is_right(done), "{shards}");
    }
}

const REPORT: &str =
    "report 1\nrace 1 7 9 wr 2 3 var 0 x\ncover 1 1\ngroup 1 1 1\nactions 4\naccesses 2\npairs 1\nraces 1\ngroups 1\nchains 2\nlinks 3\nend\n";

/// Commands, and how often shard 0 and the other shards enter: once each to list races, and once
/// each to name groups.
static ENTERED: [(Asked, (u64, u64)); 7] = [
    (
        Asked {
            words: "check",
            input: TIMEOUTS,
            written: REPORT,
            status: 1,
            compares: 1,
        },
        (2, 0),
    ),
    (
        Asked {
            words: "check --shards 3",
            input: TIMEOUTS,
            written: REPORT,
            status: 1,
            compares: 1,
        },
        (2, 4),
    ),
    (
        Asked {
            words: "--json --shards 3",
            input: TIMEOUTS,
            written: "{\"accesses\":2,\"actions\":4,\"chains\":2,\"groups\":[{\"race\":1,\"size\":1}],\"links\":3,\"pairs\":1,\"races\":[{\"actions\":[2,3],\"group\":1,\"lines\":[7,9],\"location\":\"var 0 x\",\"modes\":\"wr\"}],\"version\":1}\n",
            status: 1,
            compares: 1,
        },
        (2, 4),
    ),
    (
        Asked {
            words: "jsonl --shards 3",
            input: "[\"webtrace\",1]\n[\"parse\",0,1,\"inline\"]\n[\"exec\",1]\n[\"set\",1,10]\n[\"set\",2,0]\n[\"timer\",2]\n[\"w\",\"var\",0,\"x\"]\n[\"timer\",1]\n[\"r\",\"var\",0,\"x\"]\n[\"end\"]\n",
            written: REPORT,
            status: 1,
            compares: 1,
        },
        (2, 4),
    ),
    (
        Asked {
            words: "gen --number 1 --shards 3",
            input: "",
            written: "generated 1\ngroup 1 1 1\ngroup 2 2 1\ngroup 3 3 1\nactions 12\naccesses 6\npairs 6\nraces 3\ngroups 3\nchains 4\nlinks 12\nend\n",
            status: 1,
            compares: 6,
        },
        (2, 4),
    ),
    // No groups are named.
    (
        Asked {
            words: "schedule --race 1 --shards 3",
            input: TIMEOUTS,
            written: "schedules 1\nrace 1 7 9 wr 2 3 var 0 x\nfirst 0\nfirst 1\nfirst 2\nfirst 3\nsecond 0\nsecond 1\nsecond 3\nsecond 2\nend\n",
            status: 1,
            compares: 1,
        },
        (1, 2),
    ),
    // No races are listed.
    (
        Asked {
            words: "explain --from 2 --to 3",
            input: TIMEOUTS,
            written: "explain 2 3\nunordered\nend\n",
            status: 0,
            compares: 0,
        },
        (0, 0),
    ),
];

#[test]
fn each_command_in_its_shards(rt: HostRuntime) {
    for (asked, counts) in &ENTERED {
        let gate = Counting::new(&rt);
        let done = through_gate(&gate, rt.alloc(), &asked.call(), asked.written);
        assert!(rt;
            done.is_ok_and(|done| asked.is_due(&done)),
            "{}",
            asked.words
        );
        assert!(rt; gate.counts() == *counts, "{}", asked.words);
    }
}
