//! The modes that order two actions: two schedules for a race, and why two actions are ordered.

use crate::realistic::TRACE;
use crate::row::Asked;
use crate::words::TIMEOUTS;

const IN_ORDER: &str =
    "webtrace 1\nparse 0 1 inline\nexec 1\nset 1 0\nset 2 10\ntimer 1\nw var 0 x\ntimer 2\nr var 0 x\nend\n";

const INLINE: &str =
    "webtrace 1\nparse 0 1 inline\nexec 1\nw var 0 x\non 7\nnew 0 2 plain\ninline 1 2 click\nrun 1 0 7\nr var 0 x\nclose 1\nback 1\nw var 0 x\nend\n";

const COVERED: &str =
    "webtrace 1\nparse 0 1 inline\nexec 1\nset 1 10\nset 2 0\ntimer 2\nw var 0 x\nset 3 0\ntimer 3\nw var 0 f\ntimer 1\nr var 0 f\nset 4 0\ntimer 4\nr var 0 x\nend\n";

const JOB_BEFORE_TIMER: &str =
    "webtrace 3\nparse 0 1 plain\nqueue 1\nset 1 0\njob 1\nw var 0 x\ntimer 1\nr var 0 x\nend\n";

const JOB_IN_DISPATCH: &str =
    "webtrace 3\nparse 0 1 plain\non 1\non 2\nfire 1 1 click\nrun 1 0 1\nqueue 1\njob 1\nw var 0 x\nrun 1 0 2\nclose 1\nr var 0 x\nend\n";

static SCHEDULES: [Asked; 6] = [
    Asked {
        input: TIMEOUTS,
        words: "schedule --race 1",
        written: "schedules 1\nrace 1 7 9 wr 2 3 var 0 x\nfirst 0\nfirst 1\nfirst 2\nfirst 3\nsecond 0\nsecond 1\nsecond 3\nsecond 2\nend\n",
        status: 1,
        compares: 1,
    },
    Asked {
        input: TIMEOUTS,
        words: "schedule --race 2",
        written: "refused 10 no-race\n",
        status: 3,
        compares: 1,
    },
    Asked {
        input: COVERED,
        words: "schedule --race 1",
        written: "schedules 1\nrace 1 7 15 wr 2 5 var 0 x\nfirst 0\nfirst 1\nfirst 4\nfirst 2\nfirst 5\nfirst 3\nsecond 0\nsecond 1\nsecond 4\nsecond 5\nsecond 2\nsecond 3\nend\n",
        status: 1,
        compares: 2,
    },
    Asked {
        input: COVERED,
        words: "--shards 3 schedule --race 2",
        written: "schedules 1\nrace 2 10 12 wr 3 4 var 0 f\nfirst 0\nfirst 1\nfirst 2\nfirst 3\nfirst 4\nfirst 5\nsecond 0\nsecond 1\nsecond 2\nsecond 4\nsecond 3\nsecond 5\nend\n",
        status: 1,
        compares: 2,
    },
    Asked {
        input: IN_ORDER,
        words: "schedule --race 1",
        written: "refused 10 no-race\n",
        status: 3,
        compares: 1,
    },
    Asked {
        input: "webtrace 1\nparse 0 1 plain\ntimer 9\nend\n",
        words: "schedule --race 1",
        written: "refused 3 unknown\n",
        status: 3,
        compares: 0,
    },
];

static EXPLANATIONS: [Asked; 10] = [
    Asked {
        input: TRACE,
        words: "explain --from 12 --to 35",
        written: "explain 12 35\nstep 12 34 15\nstep 34 35 16\nend\n",
        status: 0,
        compares: 0,
    },
    Asked {
        input: IN_ORDER,
        words: "explain --from 0 --to 3",
        written: "explain 0 3\nstep 0 1 3\nstep 1 2 18\nstep 2 3 19\nend\n",
        status: 0,
        compares: 0,
    },
    Asked {
        input: INLINE,
        words: "explain --from 1 --to 5",
        written: "explain 1 5\nstep 1 2 14\nstep 2 3 16\nstep 3 4 16\nstep 4 5 22\nend\n",
        status: 0,
        compares: 0,
    },
    Asked {
        input: TIMEOUTS,
        words: "explain --from 2 --to 3",
        written: "explain 2 3\nunordered\nend\n",
        status: 0,
        compares: 0,
    },
    Asked {
        input: IN_ORDER,
        words: "explain --from 0 --to 4",
        written: "refused 10 no-action\n",
        status: 3,
        compares: 0,
    },
    Asked {
        input: IN_ORDER,
        words: "explain --from 4 --to 0",
        written: "refused 10 no-action\n",
        status: 3,
        compares: 0,
    },
    Asked {
        input: IN_ORDER,
        words: "explain --from 3 --to 3",
        written: "explain 3 3\nend\n",
        status: 0,
        compares: 0,
    },
    Asked {
        input: JOB_BEFORE_TIMER,
        words: "explain --from 1 --to 2",
        written: "explain 1 2\nstep 1 2 30\nend\n",
        status: 0,
        compares: 0,
    },
    Asked {
        input: JOB_IN_DISPATCH,
        words: "explain --from 0 --to 5",
        written: "explain 0 5\nstep 0 1 14\nstep 1 2 16\nstep 2 3 28\nstep 3 5 31\nend\n",
        status: 0,
        compares: 0,
    },
    Asked {
        input: "webtrace 1\nend\n",
        words: "explain --from 0 --to 0",
        written: "refused 2 no-action\n",
        status: 3,
        compares: 0,
    },
];

/// Classes are not compared.
#[test]
fn schedules_and_explanations(rt: HostRuntime) {
    for rows in [SCHEDULES.as_slice(), &EXPLANATIONS] {
        for asked in rows {
            let done = asked.answer(&rt, rt.alloc());
            assert!(rt;
                done.is_ok_and(|done| asked.is_due(&done) && done.tests == 0),
                "{}",
                asked.words
            );
        }
    }
}
