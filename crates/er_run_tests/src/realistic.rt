//! A realistic load: two frames, a click, an interval and a request.

use crate::row::{Counts, Row};
use crate::through::{Call, Done, call_of, through_gate};
use er_shard::{FreeGate, Gate};
use std::alloc::{AllocError, Global};

pub(crate) const TRACE: &str =
    "webtrace 1\nparse 0 1 plain\nparse 0 2 sync\nexec 2\nw var 0 app\nparse 0 3 defer\nparse 0 4 async\nparse 0 5 frame 1\nparse 0 6 frame 2\nparse 1 7 plain\nexec 4\nr var 0 app\nw var 0 count\nparse 2 8 inline\nexec 8\nw var 2 ready\nparse 0 9 plain\nw elem 0 buy\nexec 3\nr elem 0 buy\non 1\nw slot 9 click\nsend 1\non 2\nevery 1 50\ndcl 1 0\nclose 1\ndcl 2 1\nclose 2\nload 3 1\nclose 3\neload 4 5\nclose 4\ndcl 5 2\nclose 5\nload 6 2\nclose 6\neload 7 6\nclose 7\ntick 1\nr var 0 count\nreply 8 1\nrun 8 0 2\nw var 0 count\nclose 8\nload 9 0\nclose 9\nfire 10 9 click\nr slot 9 click\nrun 10 0 1\nr var 0 count\nclose 10\ntick 1\nr var 0 count\nend\n";

pub(crate) static LOAD: Row = Row {
    trace: TRACE,
    races: "race 1 13 41 wr 8 27 var 0 count\nrace 2 13 44 ww 8 29 var 0 count\nrace 3 13 51 wr 8 34 var 0 count\nrace 4 13 54 wr 8 36 var 0 count\nrace 5 22 49 wr 12 33 slot 9 click\nrace 6 41 44 rw 27 29 var 0 count\nrace 7 44 51 wr 29 34 var 0 count\nrace 8 44 54 wr 29 36 var 0 count\n",
    groups: "cover 1 1\ncover 2 2\ncover 3 3\ncover 4 1\ncover 5 4\ncover 6 5\ncover 7 6\ncover 8 7\ngroup 1 1 2\ngroup 2 2 1\ngroup 3 3 1\ngroup 4 5 1\ngroup 5 6 1\ngroup 6 7 1\ngroup 7 8 1\n",
    counts: Counts {
        actions: 37,
        accesses: 12,
        pairs: 10,
        races: 8,
        groups: 7,
        chains: 7,
        links: 40,
    },
};

/// A call over the load, between ends that never fail.
pub(crate) fn call_of_load() -> Call<'static, 'static> {
    call_of(TRACE)
}

/// What comes of a call over the load, asked against its report.
pub(crate) fn load_through<R: Gate + Sync>(
    rt: &R,
    alloc: Global,
    call: &Call<'_, '_>,
) -> Result<Done, AllocError> {
    let due = LOAD.report(alloc)?;
    through_gate(rt, alloc, call, &due)
}

/// Whether the whole report came, by one comparison a pair.
pub(crate) fn is_right(done: Result<Done, AllocError>) -> bool {
    match done {
        Ok(done) => done.is_whole(1) && done.compares == LOAD.counts.pairs,
        Err(_) => false,
    }
}

/// The same report comes whether the source gives all bytes at once or one at a time.
#[test]
fn however_it_is_cut(rt: HostRuntime) {
    for chunk in [1, 7, 4096] {
        let call = Call {
            chunk,
            ..call_of_load()
        };
        let done = load_through(&FreeGate { rt: &rt }, rt.alloc(), &call);
        assert!(rt; is_right(done), "{chunk}");
    }
}
