//! Rows of messages, animation callbacks and jobs: rules 24 to 31.

use crate::row::{Counts, Refusal, Row};

pub(crate) static REPORTS: [Row; 11] = [
    // rule 30: a job before the timeout that its event set
    Row {
        trace: "webtrace 3\nparse 0 1 plain\nqueue 1\nset 1 0\njob 1\nw var 0 x\ntimer 1\nr var 0 x\nend\n",
        races: "",
        groups: "",
        counts: Counts {
            actions: 3,
            accesses: 2,
            pairs: 1,
            races: 0,
            groups: 0,
            chains: 1,
            links: 2,
        },
    },
    // rule 30 says nothing of what another event set
    Row {
        trace: "webtrace 3\nparse 0 1 plain\nqueue 1\nparse 0 2 plain\nset 1 0\njob 1\nw var 0 x\ntimer 1\nr var 0 x\nend\n",
        races: "race 1 7 9 wr 2 3 var 0 x\n",
        groups: "cover 1 1\ngroup 1 1 1\n",
        counts: Counts {
            actions: 4,
            accesses: 2,
            pairs: 1,
            races: 1,
            groups: 1,
            chains: 2,
            links: 3,
        },
    },
    // rule 30: a callback of an interval, an animation callback and a message
    Row {
        trace: "webtrace 3\nparse 0 1 plain\nqueue 1\nevery 1 5\nask 1\npost 1\njob 1\nw var 0 x\ntick 1\nr var 0 x\nanim 1\nr var 0 x\nmessage 1\nr var 0 x\nend\n",
        races: "",
        groups: "",
        counts: Counts {
            actions: 5,
            accesses: 4,
            pairs: 3,
            races: 0,
            groups: 0,
            chains: 3,
            links: 4,
        },
    },
    // rules 24 and 25: two messages out of order
    Row {
        trace: "webtrace 3\nparse 0 1 plain\npost 1\npost 2\nmessage 2\nw var 0 x\nmessage 1\nw var 0 x\nend\n",
        races: "race 1 6 8 ww 1 2 var 0 x\n",
        groups: "cover 1 1\ngroup 1 1 1\n",
        counts: Counts {
            actions: 3,
            accesses: 2,
            pairs: 1,
            races: 1,
            groups: 1,
            chains: 2,
            links: 2,
        },
    },
    // rule 25: in order
    Row {
        trace: "webtrace 3\nparse 0 1 plain\npost 1\npost 2\nmessage 1\nw var 0 x\nmessage 2\nw var 0 x\nend\n",
        races: "",
        groups: "",
        counts: Counts {
            actions: 3,
            accesses: 2,
            pairs: 1,
            races: 0,
            groups: 0,
            chains: 1,
            links: 2,
        },
    },
    // rule 25 asks for a path between the pieces that posted
    Row {
        trace: "webtrace 3\nparse 0 1 async\nparse 0 2 async\nexec 1\npost 1\nexec 2\npost 2\nmessage 1\nw var 0 x\nmessage 2\nw var 0 x\nend\n",
        races: "race 1 9 11 ww 4 5 var 0 x\n",
        groups: "cover 1 1\ngroup 1 1 1\n",
        counts: Counts {
            actions: 6,
            accesses: 2,
            pairs: 1,
            races: 1,
            groups: 1,
            chains: 2,
            links: 5,
        },
    },
    // rule 27: two animation callbacks
    Row {
        trace: "webtrace 3\nparse 0 1 plain\nask 1\nask 2\nanim 1\nw var 0 x\nanim 2\nr var 0 x\nend\n",
        races: "",
        groups: "",
        counts: Counts {
            actions: 3,
            accesses: 2,
            pairs: 1,
            races: 0,
            groups: 0,
            chains: 1,
            links: 2,
        },
    },
    // rules 28 and 29: two jobs
    Row {
        trace: "webtrace 3\nparse 0 1 inline\nexec 1\nw var 0 x\nqueue 1\nqueue 2\njob 1\nw var 0 x\njob 2\nr var 0 x\nend\n",
        races: "",
        groups: "",
        counts: Counts {
            actions: 4,
            accesses: 3,
            pairs: 3,
            races: 0,
            groups: 0,
            chains: 1,
            links: 3,
        },
    },
    // rule 31: a job between two handlers
    Row {
        trace: "webtrace 3\nparse 0 1 plain\non 1\non 2\nfire 1 1 click\nrun 1 0 1\nqueue 1\njob 1\nw var 0 x\nrun 1 0 2\nclose 1\nr var 0 x\nend\n",
        races: "",
        groups: "",
        counts: Counts {
            actions: 6,
            accesses: 2,
            pairs: 1,
            races: 0,
            groups: 0,
            chains: 2,
            links: 6,
        },
    },
    // rule 31 says nothing of the next handler
    Row {
        trace: "webtrace 3\nparse 0 1 plain\non 1\non 2\nfire 1 1 click\nrun 1 0 1\nqueue 1\njob 1\nw var 0 x\nrun 1 1 2\nr var 0 x\nclose 1\nend\n",
        races: "race 1 9 11 wr 3 4 var 0 x\n",
        groups: "cover 1 1\ngroup 1 1 1\n",
        counts: Counts {
            actions: 6,
            accesses: 2,
            pairs: 1,
            races: 1,
            groups: 1,
            chains: 2,
            links: 6,
        },
    },
    // rule 31: an inline dispatch of a job closes before the dispatch around the job
    Row {
        trace: "webtrace 3\nparse 0 1 plain\non 1\nfire 1 1 click\nrun 1 0 1\nqueue 1\njob 1\ninline 2 1 a\nw var 0 x\nclose 2\nback 2\nclose 1\nr var 0 x\nend\n",
        races: "",
        groups: "",
        counts: Counts {
            actions: 8,
            accesses: 2,
            pairs: 1,
            races: 0,
            groups: 0,
            chains: 1,
            links: 7,
        },
    },
];

pub(crate) static REFUSALS: [Refusal; 9] = [
    // a record of version 3 in version 2
    Refusal {
        trace: "webtrace 2\nparse 0 1 plain\nqueue 1\nset 1 0\njob 1\nw var 0 x\ntimer 1\nr var 0 x\nend\n",
        line: 3,
        cause: "bad-record",
    },
    // a job while an inline dispatch is on the stack
    Refusal {
        trace: "webtrace 3\nparse 0 1 inline\nexec 1\nqueue 1\ninline 1 1 a\njob 1\nend\n",
        line: 6,
        cause: "misplaced",
    },
    // a message in a dispatch
    Refusal {
        trace: "webtrace 3\nparse 0 1 plain\npost 1\nfire 1 1 click\nmessage 1\nend\n",
        line: 5,
        cause: "misplaced",
    },
    // an animation callback in a dispatch
    Refusal {
        trace: "webtrace 3\nparse 0 1 plain\nask 1\nfire 1 1 click\nanim 1\nend\n",
        line: 5,
        cause: "misplaced",
    },
    // a note before any action
    Refusal {
        trace: "webtrace 3\nqueue 1\nend\n",
        line: 2,
        cause: "misplaced",
    },
    // a job that nothing queued
    Refusal {
        trace: "webtrace 3\nparse 0 1 plain\npost 1\njob 1\nend\n",
        line: 4,
        cause: "unknown",
    },
    // a message twice
    Refusal {
        trace: "webtrace 3\nparse 0 1 plain\npost 1\nmessage 1\nmessage 1\nend\n",
        line: 5,
        cause: "again",
    },
    // queued again
    Refusal {
        trace: "webtrace 3\nparse 0 1 plain\nqueue 1\nqueue 1\nend\n",
        line: 4,
        cause: "again",
    },
    // no fourth version
    Refusal {
        trace: "webtrace 4\nend\n",
        line: 1,
        cause: "bad-header",
    },
];
