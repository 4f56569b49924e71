//! Rows of inline dispatches and the pieces around them: rules 22 and 23.

use crate::row::{Counts, Row};

pub(crate) static REPORTS: [Row; 7] = [
    // an inline dispatch in a script
    Row {
        trace: "webtrace 1\nparse 0 1 inline\nexec 1\nw var 0 x\non 7\nnew 0 2 plain\ninline 1 2 click\nrun 1 0 7\nr var 0 x\nclose 1\nback 1\nw var 0 x\nend\n",
        races: "",
        groups: "",
        counts: Counts {
            actions: 6,
            accesses: 3,
            pairs: 3,
            races: 0,
            groups: 0,
            chains: 1,
            links: 5,
        },
    },
    // the same, cut in the dispatch
    Row {
        trace: "webtrace 1\nparse 0 1 inline\nexec 1\nw var 0 x\non 7\nnew 0 2 plain\ninline 1 2 click\nend\n",
        races: "",
        groups: "",
        counts: Counts {
            actions: 3,
            accesses: 1,
            pairs: 0,
            races: 0,
            groups: 0,
            chains: 1,
            links: 2,
        },
    },
    // rules 22 and 23: the pieces of a script
    Row {
        trace: "webtrace 1\nparse 0 1 inline\nexec 1\nw var 0 x\ninline 1 1 focus\nr var 0 x\nclose 1\nw var 0 y\nback 1\nr var 0 x\nr var 0 y\nend\n",
        races: "",
        groups: "",
        counts: Counts {
            actions: 5,
            accesses: 5,
            pairs: 3,
            races: 0,
            groups: 0,
            chains: 1,
            links: 4,
        },
    },
    // an inline dispatch in a handler, and one in its close
    Row {
        trace: "webtrace 1\nparse 0 1 plain\non 1\nfire 1 1 click\nrun 1 0 1\nw var 0 x\ninline 2 1 focus\nr var 0 x\nclose 2\ninline 3 1 blur\nw var 0 y\nclose 3\nback 3\nr var 0 y\nback 2\nr var 0 y\nw var 0 x\nclose 1\nr var 0 x\nend\n",
        races: "",
        groups: "",
        counts: Counts {
            actions: 10,
            accesses: 7,
            pairs: 7,
            races: 0,
            groups: 0,
            chains: 1,
            links: 9,
        },
    },
    // a timeout and a tick that call one
    Row {
        trace: "webtrace 1\nparse 0 1 plain\nset 1 0\nevery 1 1\ntimer 1\nw var 0 x\ninline 1 1 a\nclose 1\nback 1\nw var 0 x\ntick 1\ninline 2 1 a\nw var 0 x\nclose 2\nback 2\nr var 0 x\nend\n",
        races: "race 1 10 13 ww 4 6 var 0 x\nrace 2 10 16 wr 4 8 var 0 x\n",
        groups: "cover 1 1\ncover 2 1\ngroup 1 1 2\n",
        counts: Counts {
            actions: 9,
            accesses: 4,
            pairs: 6,
            races: 2,
            groups: 1,
            chains: 2,
            links: 9,
        },
    },
    // a close that goes on is the latest of its type
    Row {
        trace: "webtrace 1\nparse 0 1 plain\nfire 1 1 key\nclose 1\nw var 0 x\ninline 2 1 blur\nclose 2\nback 2\nw var 0 y\nfire 3 1 key\nr var 0 x\nr var 0 y\nclose 3\nend\n",
        races: "",
        groups: "",
        counts: Counts {
            actions: 8,
            accesses: 4,
            pairs: 2,
            races: 0,
            groups: 0,
            chains: 1,
            links: 7,
        },
    },
    // what an event set behind an inline dispatch belongs to it
    Row {
        trace: "webtrace 1\nparse 0 1 inline\nexec 1\nset 1 0\ninline 1 1 a\nclose 1\nback 1\nset 2 0\ntimer 1\nw var 0 x\ntimer 2\nw var 0 x\nend\n",
        races: "",
        groups: "",
        counts: Counts {
            actions: 7,
            accesses: 2,
            pairs: 1,
            races: 0,
            groups: 0,
            chains: 1,
            links: 6,
        },
    },
];
