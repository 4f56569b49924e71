//! Rows of timeouts and intervals: rules 18 to 20.

use crate::row::{Counts, Row};

pub(crate) static REPORTS: [Row; 9] = [
    // rule 18
    Row {
        trace: "webtrace 1\nparse 0 1 inline\nexec 1\nw var 0 x\nset 1 3\ntimer 1\nr var 0 x\nend\n",
        races: "",
        groups: "",
        counts: Counts {
            actions: 3,
            accesses: 2,
            pairs: 1,
            races: 0,
            groups: 0,
            chains: 1,
            links: 2,
        },
    },
    // rule 18 says nothing of another setter
    Row {
        trace: "webtrace 1\nparse 0 1 async\nparse 0 2 async\nset 1 0\nexec 1\nw var 0 x\ntimer 1\nr var 0 x\nend\n",
        races: "race 1 6 8 wr 2 3 var 0 x\n",
        groups: "cover 1 1\ngroup 1 1 1\n",
        counts: Counts {
            actions: 4,
            accesses: 2,
            pairs: 1,
            races: 1,
            groups: 1,
            chains: 2,
            links: 3,
        },
    },
    // rule 19: three timeouts of one event
    Row {
        trace: "webtrace 1\nparse 0 1 plain\nset 1 1\nset 2 2\nset 3 3\ntimer 1\nw var 0 x\ntimer 2\nw var 0 x\ntimer 3\nw var 0 x\nend\n",
        races: "",
        groups: "",
        counts: Counts {
            actions: 4,
            accesses: 3,
            pairs: 3,
            races: 0,
            groups: 0,
            chains: 1,
            links: 3,
        },
    },
    // rule 19: set in another order than fired
    Row {
        trace: "webtrace 1\nparse 0 1 plain\nset 1 1\nset 2 1\nset 3 1\ntimer 2\nw var 0 x\ntimer 1\nw var 0 x\ntimer 3\nw var 0 x\nend\n",
        races: "race 1 7 9 ww 1 2 var 0 x\n",
        groups: "cover 1 1\ngroup 1 1 1\n",
        counts: Counts {
            actions: 4,
            accesses: 3,
            pairs: 3,
            races: 1,
            groups: 1,
            chains: 2,
            links: 4,
        },
    },
    // rule 19 says nothing across two events
    Row {
        trace: "webtrace 1\nparse 0 1 plain\nset 1 0\nparse 0 2 plain\nset 2 0\ntimer 1\nw var 0 x\ntimer 2\nw var 0 x\nend\n",
        races: "race 1 7 9 ww 2 3 var 0 x\n",
        groups: "cover 1 1\ngroup 1 1 1\n",
        counts: Counts {
            actions: 4,
            accesses: 2,
            pairs: 1,
            races: 1,
            groups: 1,
            chains: 2,
            links: 3,
        },
    },
    // rule 20: two callbacks of one interval
    Row {
        trace: "webtrace 1\nparse 0 1 plain\nevery 1 50\ntick 1\nw var 0 x\ntick 1\nw var 0 x\nend\n",
        races: "",
        groups: "",
        counts: Counts {
            actions: 3,
            accesses: 2,
            pairs: 1,
            races: 0,
            groups: 0,
            chains: 1,
            links: 2,
        },
    },
    // rule 20: who set the interval
    Row {
        trace: "webtrace 1\nparse 0 1 plain\nw var 0 x\nevery 1 50\ntick 1\nr var 0 x\nend\n",
        races: "",
        groups: "",
        counts: Counts {
            actions: 2,
            accesses: 2,
            pairs: 1,
            races: 0,
            groups: 0,
            chains: 1,
            links: 1,
        },
    },
    // rule 20 says nothing of another interval
    Row {
        trace: "webtrace 1\nparse 0 1 plain\nevery 1 50\nevery 2 50\ntick 1\nw var 0 x\ntick 2\nw var 0 x\nend\n",
        races: "race 1 6 8 ww 1 2 var 0 x\n",
        groups: "cover 1 1\ngroup 1 1 1\n",
        counts: Counts {
            actions: 3,
            accesses: 2,
            pairs: 1,
            races: 1,
            groups: 1,
            chains: 2,
            links: 2,
        },
    },
    // rule 20: a third callback after the second
    Row {
        trace: "webtrace 1\nparse 0 1 plain\nevery 1 50\ntick 1\ntick 1\nw var 0 x\ntick 1\nw var 0 x\nend\n",
        races: "",
        groups: "",
        counts: Counts {
            actions: 4,
            accesses: 2,
            pairs: 1,
            races: 0,
            groups: 0,
            chains: 1,
            links: 3,
        },
    },
];
