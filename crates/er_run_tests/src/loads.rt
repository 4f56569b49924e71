//! Rows of loads: rules 8 to 13.

use crate::row::{Counts, Row};

pub(crate) static REPORTS: [Row; 22] = [
    // an image that comes after load
    Row {
        trace: "webtrace 1\nparse 0 1 image\ndcl 1 0\nclose 1\nload 2 0\nw var 0 ready\nclose 2\neload 3 1\nr var 0 ready\nclose 3\nend\n",
        races: "race 1 6 9 wr 3 5 var 0 ready\n",
        groups: "cover 1 1\ngroup 1 1 1\n",
        counts: Counts {
            actions: 7,
            accesses: 2,
            pairs: 1,
            races: 1,
            groups: 1,
            chains: 2,
            links: 6,
        },
    },
    // rule 11: an image before load
    Row {
        trace: "webtrace 1\nparse 0 1 image\ndcl 1 0\nclose 1\neload 2 1\nw var 0 ready\nclose 2\nload 3 0\nr var 0 ready\nclose 3\nend\n",
        races: "",
        groups: "",
        counts: Counts {
            actions: 7,
            accesses: 2,
            pairs: 1,
            races: 0,
            groups: 0,
            chains: 2,
            links: 7,
        },
    },
    // rule 8: a parse step
    Row {
        trace: "webtrace 1\nparse 0 1 plain\nw var 0 x\ndcl 1 0\nr var 0 x\nclose 1\nend\n",
        races: "",
        groups: "",
        counts: Counts {
            actions: 3,
            accesses: 2,
            pairs: 1,
            races: 0,
            groups: 0,
            chains: 1,
            links: 2,
        },
    },
    // rule 8: a blocking script
    Row {
        trace: "webtrace 1\nparse 0 1 inline\nexec 1\nw var 0 x\ndcl 1 0\nr var 0 x\nclose 1\nend\n",
        races: "",
        groups: "",
        counts: Counts {
            actions: 4,
            accesses: 2,
            pairs: 1,
            races: 0,
            groups: 0,
            chains: 1,
            links: 3,
        },
    },
    // rule 8: a deferred script
    Row {
        trace: "webtrace 1\nparse 0 1 defer\nexec 1\nw var 0 x\ndcl 1 0\nr var 0 x\nclose 1\nend\n",
        races: "",
        groups: "",
        counts: Counts {
            actions: 4,
            accesses: 2,
            pairs: 1,
            races: 0,
            groups: 0,
            chains: 1,
            links: 3,
        },
    },
    // rule 8 says nothing of an async script
    Row {
        trace: "webtrace 1\nparse 0 1 async\nexec 1\nw var 0 x\ndcl 1 0\nr var 0 x\nclose 1\nend\n",
        races: "race 1 4 6 wr 1 2 var 0 x\n",
        groups: "cover 1 1\ngroup 1 1 1\n",
        counts: Counts {
            actions: 4,
            accesses: 2,
            pairs: 1,
            races: 1,
            groups: 1,
            chains: 2,
            links: 3,
        },
    },
    // rule 8 says nothing of another document
    Row {
        trace: "webtrace 1\nparse 0 1 frame 1\nparse 1 2 inline\nexec 2\nw var 0 x\ndcl 1 0\nr var 0 x\nclose 1\nend\n",
        races: "race 1 5 7 wr 2 3 var 0 x\n",
        groups: "cover 1 1\ngroup 1 1 1\n",
        counts: Counts {
            actions: 5,
            accesses: 2,
            pairs: 1,
            races: 1,
            groups: 1,
            chains: 2,
            links: 4,
        },
    },
    // rule 9: a handler and the close of DOMContentLoaded
    Row {
        trace: "webtrace 1\nparse 0 1 inline\nexec 1\non 1\ndcl 1 0\nrun 1 0 1\nw var 0 x\nclose 1\nw var 0 y\nload 2 0\nr var 0 x\nr var 0 y\nclose 2\nend\n",
        races: "",
        groups: "",
        counts: Counts {
            actions: 7,
            accesses: 4,
            pairs: 2,
            races: 0,
            groups: 0,
            chains: 1,
            links: 6,
        },
    },
    // rule 9: the begin alone
    Row {
        trace: "webtrace 1\nparse 0 1 plain\ndcl 1 0\nw var 0 x\nclose 1\nload 2 0\nr var 0 x\nclose 2\nend\n",
        races: "",
        groups: "",
        counts: Counts {
            actions: 5,
            accesses: 2,
            pairs: 1,
            races: 0,
            groups: 0,
            chains: 1,
            links: 4,
        },
    },
    // rule 9 says nothing of another document
    Row {
        trace: "webtrace 1\nparse 0 1 frame 1\nparse 1 2 plain\ndcl 1 1\nw var 0 x\nclose 1\nload 2 0\nr var 0 x\nclose 2\nend\n",
        races: "race 1 5 8 wr 2 4 var 0 x\n",
        groups: "cover 1 1\ngroup 1 1 1\n",
        counts: Counts {
            actions: 6,
            accesses: 2,
            pairs: 1,
            races: 1,
            groups: 1,
            chains: 2,
            links: 5,
        },
    },
    // rule 10: an async script before load
    Row {
        trace: "webtrace 1\nparse 0 1 async\ndcl 1 0\nclose 1\nexec 1\nw var 0 x\nload 2 0\nr var 0 x\nclose 2\nend\n",
        races: "",
        groups: "",
        counts: Counts {
            actions: 6,
            accesses: 2,
            pairs: 1,
            races: 0,
            groups: 0,
            chains: 2,
            links: 6,
        },
    },
    // rule 10: a parse step before load, without DOMContentLoaded
    Row {
        trace: "webtrace 1\nparse 0 1 plain\nw var 0 x\nload 2 0\nr var 0 x\nclose 2\nend\n",
        races: "",
        groups: "",
        counts: Counts {
            actions: 3,
            accesses: 2,
            pairs: 1,
            races: 0,
            groups: 0,
            chains: 1,
            links: 2,
        },
    },
    // rule 10 says nothing of a script that a script made
    Row {
        trace: "webtrace 1\nparse 0 1 inline\nexec 1\nnew 0 2 async\nexec 2\nw var 0 x\nload 2 0\nr var 0 x\nclose 2\nend\n",
        races: "race 1 6 8 wr 2 3 var 0 x\n",
        groups: "cover 1 1\ngroup 1 1 1\n",
        counts: Counts {
            actions: 5,
            accesses: 2,
            pairs: 1,
            races: 1,
            groups: 1,
            chains: 2,
            links: 4,
        },
    },
    // rule 11 says nothing of a plain element
    Row {
        trace: "webtrace 1\nparse 0 1 plain\neload 1 1\nw var 0 x\nclose 1\nload 2 0\nr var 0 x\nclose 2\nend\n",
        races: "race 1 4 7 wr 1 3 var 0 x\n",
        groups: "cover 1 1\ngroup 1 1 1\n",
        counts: Counts {
            actions: 5,
            accesses: 2,
            pairs: 1,
            races: 1,
            groups: 1,
            chains: 2,
            links: 4,
        },
    },
    // rule 11 says nothing of an element that a script made
    Row {
        trace: "webtrace 1\nparse 0 1 inline\nexec 1\nnew 0 2 image\neload 1 2\nw var 0 x\nclose 1\nload 2 0\nr var 0 x\nclose 2\nend\n",
        races: "race 1 6 9 wr 2 4 var 0 x\n",
        groups: "cover 1 1\ngroup 1 1 1\n",
        counts: Counts {
            actions: 6,
            accesses: 2,
            pairs: 1,
            races: 1,
            groups: 1,
            chains: 2,
            links: 5,
        },
    },
    // rule 12: the run of a script before its load event
    Row {
        trace: "webtrace 1\nparse 0 1 inline\nexec 1\nnew 0 2 async\nexec 2\nw var 0 x\neload 1 2\nr var 0 x\nclose 1\nend\n",
        races: "",
        groups: "",
        counts: Counts {
            actions: 5,
            accesses: 2,
            pairs: 1,
            races: 0,
            groups: 0,
            chains: 1,
            links: 4,
        },
    },
    // rule 12: who made the element
    Row {
        trace: "webtrace 1\nparse 0 1 inline\nexec 1\nnew 0 2 image\nw var 0 x\neload 1 2\nr var 0 x\nclose 1\nend\n",
        races: "",
        groups: "",
        counts: Counts {
            actions: 4,
            accesses: 2,
            pairs: 1,
            races: 0,
            groups: 0,
            chains: 1,
            links: 3,
        },
    },
    // rule 12 says nothing of another script
    Row {
        trace: "webtrace 1\nparse 0 1 async\nparse 0 2 async\nexec 1\nw var 0 x\neload 1 2\nr var 0 x\nclose 1\nend\n",
        races: "race 1 5 7 wr 2 3 var 0 x\n",
        groups: "cover 1 1\ngroup 1 1 1\n",
        counts: Counts {
            actions: 5,
            accesses: 2,
            pairs: 1,
            races: 1,
            groups: 1,
            chains: 2,
            links: 4,
        },
    },
    // rule 13: load of the inner document
    Row {
        trace: "webtrace 1\nparse 0 1 frame 1\nparse 1 2 plain\nload 1 1\nw var 0 x\nclose 1\neload 2 1\nr var 0 x\nclose 2\nend\n",
        races: "",
        groups: "",
        counts: Counts {
            actions: 6,
            accesses: 2,
            pairs: 1,
            races: 0,
            groups: 0,
            chains: 1,
            links: 5,
        },
    },
    // rule 13: recorded after the frame's load event
    Row {
        trace: "webtrace 1\nparse 0 1 frame 1\neload 2 1\nr var 0 x\nclose 2\nload 1 1\nw var 0 x\nclose 1\nend\n",
        races: "race 1 4 7 rw 1 3 var 0 x\n",
        groups: "cover 1 1\ngroup 1 1 1\n",
        counts: Counts {
            actions: 5,
            accesses: 2,
            pairs: 1,
            races: 1,
            groups: 1,
            chains: 2,
            links: 4,
        },
    },
    // rule 13 says nothing of another document
    Row {
        trace: "webtrace 1\nparse 0 1 frame 1\nparse 0 2 frame 2\nload 1 2\nw var 0 x\nclose 1\neload 2 1\nr var 0 x\nclose 2\nend\n",
        races: "race 1 5 8 wr 2 4 var 0 x\n",
        groups: "cover 1 1\ngroup 1 1 1\n",
        counts: Counts {
            actions: 6,
            accesses: 2,
            pairs: 1,
            races: 1,
            groups: 1,
            chains: 2,
            links: 5,
        },
    },
    // two static elements before load, one after
    Row {
        trace: "webtrace 1\nparse 0 1 image\nparse 0 2 image\nparse 0 3 image\neload 1 1\nw var 0 x\nclose 1\neload 2 2\nw var 0 y\nclose 2\nload 3 0\nr var 0 x\nr var 0 y\nw var 0 z\nclose 3\neload 4 3\nr var 0 z\nclose 4\nend\n",
        races: "race 1 14 17 wr 7 9 var 0 z\n",
        groups: "cover 1 1\ngroup 1 1 1\n",
        counts: Counts {
            actions: 11,
            accesses: 6,
            pairs: 3,
            races: 1,
            groups: 1,
            chains: 4,
            links: 12,
        },
    },
];
