//! Rows of records that come too late, and of their neighbours that do not.

use crate::row::{Counts, Refusal, Row};

pub(crate) static REPORTS: [Row; 7] = [
    // one of another document
    Row {
        trace: "webtrace 1\nparse 0 1 frame 1\nparse 1 2 plain\ndcl 1 0\nclose 1\nparse 1 3 plain\nend\n",
        races: "",
        groups: "",
        counts: Counts {
            actions: 5,
            accesses: 0,
            pairs: 0,
            races: 0,
            groups: 0,
            chains: 2,
            links: 4,
        },
    },
    // an async script behind DOMContentLoaded
    Row {
        trace: "webtrace 1\nparse 0 1 async\ndcl 1 0\nclose 1\nexec 1\nend\n",
        races: "",
        groups: "",
        counts: Counts {
            actions: 4,
            accesses: 0,
            pairs: 0,
            races: 0,
            groups: 0,
            chains: 2,
            links: 3,
        },
    },
    // a script that a script made behind load
    Row {
        trace: "webtrace 1\nparse 0 1 inline\nexec 1\nnew 0 2 async\nload 1 0\nclose 1\nexec 2\nend\n",
        races: "",
        groups: "",
        counts: Counts {
            actions: 5,
            accesses: 0,
            pairs: 0,
            races: 0,
            groups: 0,
            chains: 2,
            links: 4,
        },
    },
    // a script behind the load event of another
    Row {
        trace: "webtrace 1\nparse 0 1 inline\nexec 1\nnew 0 2 async\nnew 0 3 async\neload 1 3\nclose 1\nexec 2\nend\n",
        races: "",
        groups: "",
        counts: Counts {
            actions: 5,
            accesses: 0,
            pairs: 0,
            races: 0,
            groups: 0,
            chains: 2,
            links: 4,
        },
    },
    // DOMContentLoaded behind load of another document
    Row {
        trace: "webtrace 1\nparse 0 1 frame 1\nparse 1 2 plain\nload 1 1\nclose 1\ndcl 2 0\nclose 2\nend\n",
        races: "",
        groups: "",
        counts: Counts {
            actions: 6,
            accesses: 0,
            pairs: 0,
            races: 0,
            groups: 0,
            chains: 2,
            links: 5,
        },
    },
    // a handler behind one of its group
    Row {
        trace: "webtrace 1\nparse 0 1 plain\non 1\non 2\nfire 1 1 click\nrun 1 1 1\nrun 1 1 2\nclose 1\nend\n",
        races: "",
        groups: "",
        counts: Counts {
            actions: 5,
            accesses: 0,
            pairs: 0,
            races: 0,
            groups: 0,
            chains: 2,
            links: 5,
        },
    },
    // groups of two dispatches
    Row {
        trace: "webtrace 1\nparse 0 1 plain\non 1\non 2\nfire 1 1 click\nrun 1 1 1\nclose 1\nfire 2 1 click\nrun 2 0 2\nclose 2\nend\n",
        races: "",
        groups: "",
        counts: Counts {
            actions: 7,
            accesses: 0,
            pairs: 0,
            races: 0,
            groups: 0,
            chains: 1,
            links: 6,
        },
    },
];

pub(crate) static REFUSALS: [Refusal; 12] = [
    // a parse step behind DOMContentLoaded
    Refusal {
        trace: "webtrace 1\nparse 0 1 plain\ndcl 1 0\nclose 1\nparse 0 2 plain\nend\n",
        line: 5,
        cause: "out-of-order",
    },
    // a frame's parse step behind DOMContentLoaded
    Refusal {
        trace: "webtrace 1\nparse 0 1 plain\ndcl 1 0\nclose 1\nparse 0 2 frame 1\nend\n",
        line: 5,
        cause: "out-of-order",
    },
    // a parse step behind load
    Refusal {
        trace: "webtrace 1\nparse 0 1 plain\nload 1 0\nclose 1\nparse 0 2 plain\nend\n",
        line: 5,
        cause: "out-of-order",
    },
    // a blocking script behind a deferred one
    Refusal {
        trace: "webtrace 1\nparse 0 1 defer\nparse 0 2 sync\nexec 1\nexec 2\nend\n",
        line: 5,
        cause: "out-of-order",
    },
    // a blocking script behind DOMContentLoaded
    Refusal {
        trace: "webtrace 1\nparse 0 1 inline\ndcl 1 0\nclose 1\nexec 1\nend\n",
        line: 5,
        cause: "out-of-order",
    },
    // a deferred script behind DOMContentLoaded
    Refusal {
        trace: "webtrace 1\nparse 0 1 defer\ndcl 1 0\nclose 1\nexec 1\nend\n",
        line: 5,
        cause: "out-of-order",
    },
    // an async script behind load
    Refusal {
        trace: "webtrace 1\nparse 0 1 async\nload 1 0\nclose 1\nexec 1\nend\n",
        line: 5,
        cause: "out-of-order",
    },
    // a script behind its load event
    Refusal {
        trace: "webtrace 1\nparse 0 1 inline\nexec 1\nnew 0 2 async\neload 1 2\nclose 1\nexec 2\nend\n",
        line: 7,
        cause: "out-of-order",
    },
    // DOMContentLoaded behind load
    Refusal {
        trace: "webtrace 1\nparse 0 1 plain\nload 1 0\nclose 1\ndcl 2 0\nend\n",
        line: 5,
        cause: "out-of-order",
    },
    // a handler behind one of a greater group
    Refusal {
        trace: "webtrace 1\nparse 0 1 plain\non 1\non 2\nfire 1 1 click\nrun 1 1 1\nrun 1 0 2\nend\n",
        line: 7,
        cause: "out-of-order",
    },
    // the same behind an access of the greater one
    Refusal {
        trace: "webtrace 1\nparse 0 1 plain\non 1\non 2\nfire 1 1 click\nrun 1 1 1\nw var 0 x\nrun 1 0 2\nw var 0 x\nclose 1\nend\n",
        line: 8,
        cause: "out-of-order",
    },
    // nesting is asked before order
    Refusal {
        trace: "webtrace 1\nparse 0 1 plain\non 1\non 2\nfire 1 1 click\nrun 1 1 1\nfire 2 1 click\nend\n",
        line: 7,
        cause: "misplaced",
    },
];
