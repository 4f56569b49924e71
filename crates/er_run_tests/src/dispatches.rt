//! Rows of dispatches: rules 14 to 17.

use crate::row::{Counts, Row};

pub(crate) static REPORTS: [Row; 16] = [
    // rule 14: who made the element
    Row {
        trace: "webtrace 1\nparse 0 1 inline\nexec 1\nnew 0 2 plain\nw var 0 x\nfire 1 2 click\nr var 0 x\nclose 1\nend\n",
        races: "",
        groups: "",
        counts: Counts {
            actions: 4,
            accesses: 2,
            pairs: 1,
            races: 0,
            groups: 0,
            chains: 1,
            links: 3,
        },
    },
    // rule 14 says nothing of another element
    Row {
        trace: "webtrace 1\nparse 0 1 async\nparse 0 2 plain\nexec 1\nw var 0 x\nfire 1 2 click\nr var 0 x\nclose 1\nend\n",
        races: "race 1 5 7 wr 2 3 var 0 x\n",
        groups: "cover 1 1\ngroup 1 1 1\n",
        counts: Counts {
            actions: 5,
            accesses: 2,
            pairs: 1,
            races: 1,
            groups: 1,
            chains: 2,
            links: 4,
        },
    },
    // rule 14: who declared the document
    Row {
        trace: "webtrace 1\nparse 0 1 inline\nexec 1\nw var 0 x\nnew 0 2 frame 1\nwfire 1 1 resize\nr var 0 x\nclose 1\ndcl 2 1\nr var 0 x\nclose 2\nload 3 1\nr var 0 x\nclose 3\nend\n",
        races: "",
        groups: "",
        counts: Counts {
            actions: 8,
            accesses: 4,
            pairs: 3,
            races: 0,
            groups: 0,
            chains: 2,
            links: 7,
        },
    },
    // rule 14 says nothing of the page's own window
    Row {
        trace: "webtrace 1\nparse 0 1 plain\nw var 0 x\nwfire 1 0 resize\nr var 0 x\nclose 1\nend\n",
        races: "race 1 3 5 wr 0 1 var 0 x\n",
        groups: "cover 1 1\ngroup 1 1 1\n",
        counts: Counts {
            actions: 3,
            accesses: 2,
            pairs: 1,
            races: 1,
            groups: 1,
            chains: 2,
            links: 1,
        },
    },
    // rule 15: who registered the handler
    Row {
        trace: "webtrace 1\nparse 0 1 plain\nparse 0 2 async\nexec 2\nw var 0 x\non 1\nfire 1 1 click\nrun 1 0 1\nr var 0 x\nclose 1\nend\n",
        races: "",
        groups: "",
        counts: Counts {
            actions: 6,
            accesses: 2,
            pairs: 1,
            races: 0,
            groups: 0,
            chains: 2,
            links: 6,
        },
    },
    // rule 15: the begin is not behind it
    Row {
        trace: "webtrace 1\nparse 0 1 plain\nparse 0 2 async\nexec 2\nw var 0 x\non 1\nfire 1 1 click\nr var 0 x\nrun 1 0 1\nclose 1\nend\n",
        races: "race 1 5 8 wr 2 3 var 0 x\n",
        groups: "cover 1 1\ngroup 1 1 1\n",
        counts: Counts {
            actions: 6,
            accesses: 2,
            pairs: 1,
            races: 1,
            groups: 1,
            chains: 2,
            links: 6,
        },
    },
    // rule 16: handlers of one group
    Row {
        trace: "webtrace 1\nparse 0 1 plain\non 1\non 2\nfire 1 1 click\nrun 1 0 1\nw var 0 x\nrun 1 0 2\nw var 0 x\nclose 1\nend\n",
        races: "race 1 7 9 ww 2 3 var 0 x\n",
        groups: "cover 1 1\ngroup 1 1 1\n",
        counts: Counts {
            actions: 5,
            accesses: 2,
            pairs: 1,
            races: 1,
            groups: 1,
            chains: 2,
            links: 5,
        },
    },
    // rule 16: handlers of two groups
    Row {
        trace: "webtrace 1\nparse 0 1 plain\non 1\non 2\nfire 1 1 click\nrun 1 0 1\nw var 0 x\nrun 1 1 2\nw var 0 x\nclose 1\nend\n",
        races: "",
        groups: "",
        counts: Counts {
            actions: 5,
            accesses: 2,
            pairs: 1,
            races: 0,
            groups: 0,
            chains: 1,
            links: 4,
        },
    },
    // rule 16: a group behind a gap, both handlers of the smaller one, and the close
    Row {
        trace: "webtrace 1\nparse 0 1 plain\non 1\non 2\non 3\nfire 1 1 click\nw var 0 b\nrun 1 2 1\nr var 0 b\nw var 0 x\nrun 1 2 2\nw var 0 y\nrun 1 9 3\nr var 0 x\nr var 0 y\nclose 1\nr var 0 x\nr var 0 y\nend\n",
        races: "",
        groups: "",
        counts: Counts {
            actions: 6,
            accesses: 8,
            pairs: 5,
            races: 0,
            groups: 0,
            chains: 2,
            links: 6,
        },
    },
    // rule 17: one type at one element
    Row {
        trace: "webtrace 1\nparse 0 1 plain\nfire 1 1 input\nw var 0 x\nclose 1\nw var 0 y\nfire 2 1 input\nw var 0 x\nw var 0 y\nclose 2\nend\n",
        races: "",
        groups: "",
        counts: Counts {
            actions: 5,
            accesses: 4,
            pairs: 2,
            races: 0,
            groups: 0,
            chains: 1,
            links: 4,
        },
    },
    // rule 17 says nothing of two types
    Row {
        trace: "webtrace 1\nparse 0 1 plain\nfire 1 1 input\nw var 0 x\nclose 1\nfire 2 1 key\nw var 0 x\nclose 2\nend\n",
        races: "race 1 4 7 ww 1 3 var 0 x\n",
        groups: "cover 1 1\ngroup 1 1 1\n",
        counts: Counts {
            actions: 5,
            accesses: 2,
            pairs: 1,
            races: 1,
            groups: 1,
            chains: 2,
            links: 4,
        },
    },
    // rule 17 says nothing of two elements
    Row {
        trace: "webtrace 1\nparse 0 1 plain\nparse 0 2 plain\nfire 1 1 key\nw var 0 x\nclose 1\nfire 2 2 key\nw var 0 x\nclose 2\nend\n",
        races: "race 1 5 8 ww 2 4 var 0 x\n",
        groups: "cover 1 1\ngroup 1 1 1\n",
        counts: Counts {
            actions: 6,
            accesses: 2,
            pairs: 1,
            races: 1,
            groups: 1,
            chains: 2,
            links: 5,
        },
    },
    // rule 17: one type at one window
    Row {
        trace: "webtrace 1\nparse 0 1 plain\nwfire 1 0 resize\nw var 0 x\nclose 1\nwfire 2 0 resize\nw var 0 x\nclose 2\nend\n",
        races: "",
        groups: "",
        counts: Counts {
            actions: 5,
            accesses: 2,
            pairs: 1,
            races: 0,
            groups: 0,
            chains: 2,
            links: 3,
        },
    },
    // rule 17 says nothing of an element and a window of one number
    Row {
        trace: "webtrace 1\nparse 0 0 plain\nfire 1 0 key\nw var 0 x\nclose 1\nwfire 2 0 key\nw var 0 x\nclose 2\nend\n",
        races: "race 1 4 7 ww 1 3 var 0 x\n",
        groups: "cover 1 1\ngroup 1 1 1\n",
        counts: Counts {
            actions: 5,
            accesses: 2,
            pairs: 1,
            races: 1,
            groups: 1,
            chains: 2,
            links: 3,
        },
    },
    // rule 17 says nothing of a first load event
    Row {
        trace: "webtrace 1\nparse 0 1 image\neload 1 1\nw var 0 x\nclose 1\nfire 2 1 load\nw var 0 x\nclose 2\nend\n",
        races: "race 1 4 7 ww 1 3 var 0 x\n",
        groups: "cover 1 1\ngroup 1 1 1\n",
        counts: Counts {
            actions: 5,
            accesses: 2,
            pairs: 1,
            races: 1,
            groups: 1,
            chains: 2,
            links: 4,
        },
    },
    // rule 17: an inline dispatch and a later one
    Row {
        trace: "webtrace 1\nparse 0 1 inline\nexec 1\ninline 1 1 key\nw var 0 x\nclose 1\nback 1\nfire 2 1 key\nw var 0 x\nclose 2\nend\n",
        races: "",
        groups: "",
        counts: Counts {
            actions: 7,
            accesses: 2,
            pairs: 1,
            races: 0,
            groups: 0,
            chains: 2,
            links: 6,
        },
    },
];
