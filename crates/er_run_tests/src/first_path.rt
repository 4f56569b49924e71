//! Rows of timeouts and variables, of lines and of names.

use crate::row::{Counts, Refusal, Row};

pub(crate) static REPORTS: [Row; 7] = [
    // repeats, after a script set both timeouts
    Row {
        trace: "webtrace 1\nparse 0 1 inline\nexec 1\nset 1 10\nset 2 0\ntimer 2\nr var 0 x\nr var 0 x\nw var 0 x\ntimer 1\nw var 0 x\nend\n",
        races: "race 1 7 11 rw 2 3 var 0 x\nrace 2 9 11 ww 2 3 var 0 x\n",
        groups: "cover 1 1\ncover 2 1\ngroup 1 1 2\n",
        counts: Counts {
            actions: 4,
            accesses: 3,
            pairs: 2,
            races: 2,
            groups: 1,
            chains: 2,
            links: 3,
        },
    },
    // repeats, and three modes
    Row {
        trace: "webtrace 1\nparse 0 1 plain\nset 1 10\nset 2 0\ntimer 2\nr var 0 x\nr var 0 x\nw var 0 x\ntimer 1\nw var 0 x\nend\n",
        races: "race 1 6 10 rw 1 2 var 0 x\nrace 2 8 10 ww 1 2 var 0 x\n",
        groups: "cover 1 1\ncover 2 1\ngroup 1 1 2\n",
        counts: Counts {
            actions: 3,
            accesses: 3,
            pairs: 2,
            races: 2,
            groups: 1,
            chains: 2,
            links: 2,
        },
    },
    // one action, two reads, another object and another name are no pairs; a name with a space
    Row {
        trace: "webtrace 1\nparse 0 1 plain\nw var 3 a%20b\nr var 3 a%20b\nset 1 1\nset 2 0\ntimer 2\nr var 3 a%20b\nw var 4 a%20b\nw var 3 ab\ntimer 1\nr var 3 a%20b\nend\n",
        races: "",
        groups: "",
        counts: Counts {
            actions: 3,
            accesses: 6,
            pairs: 2,
            races: 0,
            groups: 0,
            chains: 2,
            links: 2,
        },
    },
    // parse steps in order
    Row {
        trace: "webtrace 1\nparse 0 1 plain\nw var 3 a%20b\nparse 0 2 plain\nr var 3 a%20b\nend\n",
        races: "",
        groups: "",
        counts: Counts {
            actions: 2,
            accesses: 2,
            pairs: 1,
            races: 0,
            groups: 0,
            chains: 1,
            links: 1,
        },
    },
    // a frame's parse step is one of its document
    Row {
        trace: "webtrace 1\nparse 0 1 frame 1\nw var 0 x\nparse 0 2 plain\nr var 0 x\nend\n",
        races: "",
        groups: "",
        counts: Counts {
            actions: 2,
            accesses: 2,
            pairs: 1,
            races: 0,
            groups: 0,
            chains: 1,
            links: 1,
        },
    },
    // a place of an element
    Row {
        trace: "webtrace 1\nparse 0 1 plain\nset 1 10\nset 2 0\ntimer 2\nw elem 0 x\ntimer 1\nr elem 0 x\nend\n",
        races: "race 1 6 8 wr 1 2 elem 0 x\n",
        groups: "cover 1 1\ngroup 1 1 1\n",
        counts: Counts {
            actions: 3,
            accesses: 2,
            pairs: 1,
            races: 1,
            groups: 1,
            chains: 2,
            links: 2,
        },
    },
    // one access to a place of an element, with a space in its name
    Row {
        trace: "webtrace 1\nparse 0 1 plain\nw elem 0 a%20b\nend\n",
        races: "",
        groups: "",
        counts: Counts {
            actions: 1,
            accesses: 1,
            pairs: 0,
            races: 0,
            groups: 0,
            chains: 1,
            links: 0,
        },
    },
];

pub(crate) static REFUSALS: [Refusal; 33] = [
    Refusal {
        trace: "webtrace 1\nparse 0 1 plain\ntimer 9\nend\n",
        line: 3,
        cause: "unknown",
    },
    Refusal {
        trace: "webtrace 1\nparse 0 1 plain\nexec 1\nend\n",
        line: 3,
        cause: "not-script",
    },
    Refusal {
        trace: "webtrace 1\nset 1 0\nend\n",
        line: 2,
        cause: "misplaced",
    },
    Refusal {
        trace: "webtrace 1\non 1\nend\n",
        line: 2,
        cause: "misplaced",
    },
    Refusal {
        trace: "webtrace 1\ntimer 9\nend\n",
        line: 2,
        cause: "unknown",
    },
    Refusal {
        trace: "webtrace 1\nr var 0 x\nend\n",
        line: 2,
        cause: "misplaced",
    },
    Refusal {
        trace: "webtrace 1\nparse 0 1 inline\nexec 1\nexec 1\nend\n",
        line: 4,
        cause: "again",
    },
    Refusal {
        trace: "webtrace 1\nparse 0 1 plain\nfire 1 1 click\nparse 0 2 plain\nend\n",
        line: 4,
        cause: "misplaced",
    },
    Refusal {
        trace: "webtrace 1\nparse 1 1 plain\nend\n",
        line: 2,
        cause: "unknown",
    },
    Refusal {
        trace: "webtrace 1\nparse 0 1 plain\nparse 0 1 plain\nend\n",
        line: 3,
        cause: "again",
    },
    Refusal {
        trace: "webtrace 1\nparse 0 1 plain\nparse 5 1 plain\nend\n",
        line: 3,
        cause: "unknown",
    },
    Refusal {
        trace: "webtrace 1\nparse 0 1 plain\nset 1 5\nset 1 6\nend\n",
        line: 4,
        cause: "again",
    },
    Refusal {
        trace: "webtrace 1\nparse 0 1 plain\nset 1 0\ntimer 1\ntimer 1\nend\n",
        line: 5,
        cause: "again",
    },
    Refusal {
        trace: "webtrace 1\nparse 0 1 plain\nset 1 007\nend\n",
        line: 3,
        cause: "bad-record",
    },
    Refusal {
        trace: "webtrace 1\nparse 0 1 plain\nset 1 7 \nend\n",
        line: 3,
        cause: "bad-record",
    },
    Refusal {
        trace: "webtrace 1\nparse 0 1 plain\nset  1 7\nend\n",
        line: 3,
        cause: "bad-record",
    },
    Refusal {
        trace: "webtrace 1\nparse 0 1 plain\nw var 0 %41\nend\n",
        line: 3,
        cause: "bad-record",
    },
    Refusal {
        trace: "webtrace 1\nparse 0 1 plain\nw elem 0 %41\nend\n",
        line: 3,
        cause: "bad-record",
    },
    Refusal {
        trace: "webtrace 1\nparse 0 1 plain\nw elem 0 a%2f\nend\n",
        line: 3,
        cause: "bad-record",
    },
    Refusal {
        trace: "webtrace 1\nparse 0 1 plain\nw elem 0 %\nend\n",
        line: 3,
        cause: "bad-record",
    },
    Refusal {
        trace: "webtrace 1\nparse 0 1 plain\nw elem 0\nend\n",
        line: 3,
        cause: "bad-record",
    },
    Refusal {
        trace: "webtrace 1\nparse 0 1 plain\r\nend\n",
        line: 2,
        cause: "bad-record",
    },
    Refusal {
        trace: "webtrace 1\n\nend\n",
        line: 2,
        cause: "bad-record",
    },
    Refusal {
        trace: "webtrace 1\nend",
        line: 2,
        cause: "no-end",
    },
    Refusal {
        trace: "webtrace 1\nend\nend\n",
        line: 3,
        cause: "after-end",
    },
    Refusal {
        trace: "webtrace 1\nend\n\n",
        line: 3,
        cause: "after-end",
    },
    Refusal {
        trace: "",
        line: 1,
        cause: "no-end",
    },
    Refusal {
        trace: "webtrace 1",
        line: 1,
        cause: "no-end",
    },
    Refusal {
        trace: "webtrace 1\nparse 0 1 plain\n",
        line: 3,
        cause: "no-end",
    },
    Refusal {
        trace: "webtrace 9\nend\n",
        line: 1,
        cause: "bad-header",
    },
    Refusal {
        trace: "\nwebtrace 1\nend\n",
        line: 1,
        cause: "bad-header",
    },
    // the first illegal line decides
    Refusal {
        trace: "webtrace 1\nparse 0 1 plain\ntimer 9\nnonsense\n",
        line: 3,
        cause: "unknown",
    },
    Refusal {
        trace: "webtrace 1\nparse 0 1 plain\nnonsense\ntimer 9\n",
        line: 3,
        cause: "bad-record",
    },
];
