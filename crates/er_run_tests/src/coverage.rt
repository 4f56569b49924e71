//! Rows of coverage: which races name which, and in which order the groups stand.

use crate::row::{Counts, Row};

pub(crate) static REPORTS: [Row; 5] = [
    // an earlier race covers the last
    Row {
        trace: "webtrace 1\nparse 0 1 inline\nexec 1\nset 1 10\nset 2 0\ntimer 2\nw var 0 f\ntimer 1\nr var 0 f\nset 3 0\ntimer 3\nr var 0 f\nend\n",
        races: "race 1 7 9 wr 2 3 var 0 f\nrace 2 7 12 wr 2 4 var 0 f\n",
        groups: "cover 1 1\ncover 2 1\ngroup 1 1 2\n",
        counts: Counts {
            actions: 5,
            accesses: 3,
            pairs: 2,
            races: 2,
            groups: 1,
            chains: 2,
            links: 4,
        },
    },
    // of three races each covers those before it
    Row {
        trace: "webtrace 1\nparse 0 1 inline\nexec 1\nset 1 10\nset 2 0\ntimer 2\nw var 0 x\nset 3 0\ntimer 3\nw var 0 y\nset 4 0\ntimer 4\nw var 0 z\ntimer 1\nr var 0 z\nset 5 0\ntimer 5\nr var 0 y\nset 6 0\ntimer 6\nr var 0 x\nend\n",
        races: "race 1 7 21 wr 2 7 var 0 x\nrace 2 10 18 wr 3 6 var 0 y\nrace 3 13 15 wr 4 5 var 0 z\n",
        groups: "cover 1 1\ncover 2 1\ncover 3 1\ngroup 1 3 3\n",
        counts: Counts {
            actions: 8,
            accesses: 6,
            pairs: 3,
            races: 3,
            groups: 1,
            chains: 2,
            links: 7,
        },
    },
    // two races cover the first, and neither the other: it names the first group
    Row {
        trace: "webtrace 1\nparse 0 1 inline\nexec 1\nset 1 20\nset 2 0\ntimer 2\nw var 0 x\nset 3 9\nset 4 0\ntimer 4\nw var 0 f\ntimer 3\nw var 0 g\ntimer 1\nr var 0 f\nr var 0 g\nset 5 0\ntimer 5\nr var 0 x\nend\n",
        races: "race 1 7 19 wr 2 6 var 0 x\nrace 2 11 15 wr 3 5 var 0 f\nrace 3 13 16 wr 4 5 var 0 g\n",
        groups: "cover 1 1\ncover 2 1\ncover 3 2\ngroup 1 2 2\ngroup 2 3 1\n",
        counts: Counts {
            actions: 7,
            accesses: 6,
            pairs: 3,
            races: 3,
            groups: 2,
            chains: 3,
            links: 6,
        },
    },
    // groups stand as their first races, not as their widths
    Row {
        trace: "webtrace 1\nparse 0 1 inline\nexec 1\nset 1 20\nset 2 10\nset 3 0\ntimer 3\nw var 0 x\ntimer 2\nw var 0 y\ntimer 1\nr var 0 x\nr var 0 y\nend\n",
        races: "race 1 8 12 wr 2 4 var 0 x\nrace 2 10 13 wr 3 4 var 0 y\n",
        groups: "cover 1 1\ncover 2 2\ngroup 1 1 1\ngroup 2 2 1\n",
        counts: Counts {
            actions: 5,
            accesses: 4,
            pairs: 2,
            races: 2,
            groups: 2,
            chains: 3,
            links: 4,
        },
    },
    // a path on one side alone covers nothing
    Row {
        trace: "webtrace 1\nparse 0 1 inline\nexec 1\nset 1 20\nset 2 10\nset 3 0\ntimer 3\nw var 0 x\nw var 0 y\ntimer 2\nr var 0 x\ntimer 1\nr var 0 y\nend\n",
        races: "race 1 8 11 wr 2 3 var 0 x\nrace 2 9 13 wr 2 4 var 0 y\n",
        groups: "cover 1 1\ncover 2 2\ngroup 1 1 1\ngroup 2 2 1\n",
        counts: Counts {
            actions: 5,
            accesses: 4,
            pairs: 2,
            races: 2,
            groups: 2,
            chains: 3,
            links: 4,
        },
    },
];
