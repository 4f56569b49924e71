//! Rows of requests: rule 21.

use crate::row::{Counts, Row};

pub(crate) static REPORTS: [Row; 4] = [
    // rule 21: who sent the request
    Row {
        trace: "webtrace 1\nparse 0 1 plain\nsend 1\nw var 0 x\nreply 1 1\nr var 0 x\nclose 1\nend\n",
        races: "",
        groups: "",
        counts: Counts {
            actions: 3,
            accesses: 2,
            pairs: 1,
            races: 0,
            groups: 0,
            chains: 1,
            links: 2,
        },
    },
    // rule 21: two replies of one request
    Row {
        trace: "webtrace 1\nparse 0 1 plain\nsend 1\nreply 1 1\nclose 1\nw var 0 x\nreply 2 1\nr var 0 x\nclose 2\nend\n",
        races: "",
        groups: "",
        counts: Counts {
            actions: 5,
            accesses: 2,
            pairs: 1,
            races: 0,
            groups: 0,
            chains: 1,
            links: 4,
        },
    },
    // rule 21: a handler of the first reply
    Row {
        trace: "webtrace 1\nparse 0 1 plain\non 1\nsend 1\nreply 1 1\nrun 1 0 1\nw var 0 x\nclose 1\nreply 2 1\nr var 0 x\nclose 2\nend\n",
        races: "",
        groups: "",
        counts: Counts {
            actions: 6,
            accesses: 2,
            pairs: 1,
            races: 0,
            groups: 0,
            chains: 1,
            links: 5,
        },
    },
    // rule 21 says nothing of two requests
    Row {
        trace: "webtrace 1\nparse 0 1 plain\nsend 1\nsend 2\nreply 1 1\nw var 0 x\nclose 1\nreply 2 2\nw var 0 x\nclose 2\nend\n",
        races: "race 1 6 9 ww 1 3 var 0 x\n",
        groups: "cover 1 1\ngroup 1 1 1\n",
        counts: Counts {
            actions: 5,
            accesses: 2,
            pairs: 1,
            races: 1,
            groups: 1,
            chains: 2,
            links: 4,
        },
    },
];
