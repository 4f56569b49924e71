//! Rows of parsing and scripts: rules 1 to 7, and the records that they hold back.

use crate::row::{Counts, Refusal, Row};

pub(crate) static REPORTS: [Row; 30] = [
    // two timeouts that a script set race
    Row {
        trace: "webtrace 1\nparse 0 1 inline\nexec 1\nset 1 10\nset 2 0\ntimer 2\nw var 0 x\ntimer 1\nr var 0 x\nend\n",
        races: "race 1 7 9 wr 2 3 var 0 x\n",
        groups: "cover 1 1\ngroup 1 1 1\n",
        counts: Counts {
            actions: 4,
            accesses: 2,
            pairs: 1,
            races: 1,
            groups: 1,
            chains: 2,
            links: 3,
        },
    },
    // set first, and no longer delay
    Row {
        trace: "webtrace 1\nparse 0 1 inline\nexec 1\nset 1 0\nset 2 10\ntimer 1\nw var 0 x\ntimer 2\nr var 0 x\nend\n",
        races: "",
        groups: "",
        counts: Counts {
            actions: 4,
            accesses: 2,
            pairs: 1,
            races: 0,
            groups: 0,
            chains: 1,
            links: 3,
        },
    },
    // equal delays
    Row {
        trace: "webtrace 1\nparse 0 1 inline\nexec 1\nset 1 5\nset 2 5\ntimer 1\nw var 0 x\ntimer 2\nr var 0 x\nend\n",
        races: "",
        groups: "",
        counts: Counts {
            actions: 4,
            accesses: 2,
            pairs: 1,
            races: 0,
            groups: 0,
            chains: 1,
            links: 3,
        },
    },
    // a trace that disagrees with the delays
    Row {
        trace: "webtrace 1\nparse 0 1 inline\nexec 1\nset 1 0\nset 2 10\ntimer 2\nw var 0 x\ntimer 1\nr var 0 x\nend\n",
        races: "race 1 7 9 wr 2 3 var 0 x\n",
        groups: "cover 1 1\ngroup 1 1 1\n",
        counts: Counts {
            actions: 4,
            accesses: 2,
            pairs: 1,
            races: 1,
            groups: 1,
            chains: 2,
            links: 3,
        },
    },
    // rule 1: parse steps of one document
    Row {
        trace: "webtrace 1\nparse 0 1 frame 1\nparse 1 2 plain\nw var 0 x\nparse 1 3 plain\nw var 0 x\nend\n",
        races: "",
        groups: "",
        counts: Counts {
            actions: 3,
            accesses: 2,
            pairs: 1,
            races: 0,
            groups: 0,
            chains: 1,
            links: 2,
        },
    },
    // and not of two documents
    Row {
        trace: "webtrace 1\nparse 0 1 frame 1\nparse 1 2 plain\nw var 0 x\nparse 0 3 plain\nw var 0 x\nend\n",
        races: "race 1 4 6 ww 1 2 var 0 x\n",
        groups: "cover 1 1\ngroup 1 1 1\n",
        counts: Counts {
            actions: 3,
            accesses: 2,
            pairs: 1,
            races: 1,
            groups: 1,
            chains: 2,
            links: 2,
        },
    },
    // rule 2: the parse step that declared the document
    Row {
        trace: "webtrace 1\nparse 0 1 frame 1\nw var 0 x\nparse 1 2 plain\nr var 0 x\nend\n",
        races: "",
        groups: "",
        counts: Counts {
            actions: 2,
            accesses: 2,
            pairs: 1,
            races: 0,
            groups: 0,
            chains: 1,
            links: 1,
        },
    },
    // and not one that declared another
    Row {
        trace: "webtrace 1\nparse 0 1 frame 1\nparse 0 2 frame 2\nw var 0 x\nparse 1 3 plain\nr var 0 x\nend\n",
        races: "race 1 4 6 wr 1 2 var 0 x\n",
        groups: "cover 1 1\ngroup 1 1 1\n",
        counts: Counts {
            actions: 3,
            accesses: 2,
            pairs: 1,
            races: 1,
            groups: 1,
            chains: 2,
            links: 2,
        },
    },
    // also a script that declared it
    Row {
        trace: "webtrace 1\nparse 0 1 async\nexec 1\nnew 0 2 frame 1\nw var 0 x\nparse 1 3 plain\nr var 0 x\nend\n",
        races: "",
        groups: "",
        counts: Counts {
            actions: 3,
            accesses: 2,
            pairs: 1,
            races: 0,
            groups: 0,
            chains: 1,
            links: 2,
        },
    },
    // rule 3: the parse step that made the script
    Row {
        trace: "webtrace 1\nparse 0 1 async\nw var 0 x\nexec 1\nr var 0 x\nend\n",
        races: "",
        groups: "",
        counts: Counts {
            actions: 2,
            accesses: 2,
            pairs: 1,
            races: 0,
            groups: 0,
            chains: 1,
            links: 1,
        },
    },
    // and not one that made another
    Row {
        trace: "webtrace 1\nparse 0 1 async\nparse 0 2 async\nw var 0 x\nexec 1\nr var 0 x\nend\n",
        races: "race 1 4 6 wr 1 2 var 0 x\n",
        groups: "cover 1 1\ngroup 1 1 1\n",
        counts: Counts {
            actions: 3,
            accesses: 2,
            pairs: 1,
            races: 1,
            groups: 1,
            chains: 2,
            links: 2,
        },
    },
    // also a script that made it
    Row {
        trace: "webtrace 1\nparse 0 1 async\nexec 1\nnew 0 2 async\nw var 0 x\nexec 2\nr var 0 x\nend\n",
        races: "",
        groups: "",
        counts: Counts {
            actions: 3,
            accesses: 2,
            pairs: 1,
            races: 0,
            groups: 0,
            chains: 1,
            links: 2,
        },
    },
    // and not before a parse step of another document
    Row {
        trace: "webtrace 1\nparse 0 1 frame 1\nparse 0 2 inline\nexec 2\nw var 0 x\nparse 1 3 plain\nr var 0 x\nend\n",
        races: "race 1 5 7 wr 2 3 var 0 x\n",
        groups: "cover 1 1\ngroup 1 1 1\n",
        counts: Counts {
            actions: 4,
            accesses: 2,
            pairs: 1,
            races: 1,
            groups: 1,
            chains: 2,
            links: 3,
        },
    },
    // rule 5: a parse step before a deferred script
    Row {
        trace: "webtrace 1\nparse 0 1 defer\nparse 0 2 plain\nw var 0 x\nexec 1\nr var 0 x\nend\n",
        races: "",
        groups: "",
        counts: Counts {
            actions: 3,
            accesses: 2,
            pairs: 1,
            races: 0,
            groups: 0,
            chains: 1,
            links: 2,
        },
    },
    // and not one of another document
    Row {
        trace: "webtrace 1\nparse 0 1 frame 1\nparse 0 2 defer\nparse 1 3 plain\nw var 0 x\nexec 2\nr var 0 x\nend\n",
        races: "race 1 5 7 wr 2 3 var 0 x\n",
        groups: "cover 1 1\ngroup 1 1 1\n",
        counts: Counts {
            actions: 4,
            accesses: 2,
            pairs: 1,
            races: 1,
            groups: 1,
            chains: 2,
            links: 3,
        },
    },
    // rule 6: a blocking script before a deferred one
    Row {
        trace: "webtrace 1\nparse 0 1 defer\nparse 0 2 inline\nexec 2\nw var 0 x\nexec 1\nr var 0 x\nend\n",
        races: "",
        groups: "",
        counts: Counts {
            actions: 4,
            accesses: 2,
            pairs: 1,
            races: 0,
            groups: 0,
            chains: 1,
            links: 3,
        },
    },
    // and not an async one
    Row {
        trace: "webtrace 1\nparse 0 1 defer\nparse 0 2 async\nexec 2\nw var 0 x\nexec 1\nr var 0 x\nend\n",
        races: "race 1 5 7 wr 2 3 var 0 x\n",
        groups: "cover 1 1\ngroup 1 1 1\n",
        counts: Counts {
            actions: 4,
            accesses: 2,
            pairs: 1,
            races: 1,
            groups: 1,
            chains: 2,
            links: 3,
        },
    },
    // and not one of another document
    Row {
        trace: "webtrace 1\nparse 0 1 frame 1\nparse 0 2 defer\nparse 1 3 inline\nexec 3\nw var 0 x\nexec 2\nr var 0 x\nend\n",
        races: "race 1 6 8 wr 3 4 var 0 x\n",
        groups: "cover 1 1\ngroup 1 1 1\n",
        counts: Counts {
            actions: 5,
            accesses: 2,
            pairs: 1,
            races: 1,
            groups: 1,
            chains: 2,
            links: 4,
        },
    },
    // rule 7: deferred scripts as they were parsed
    Row {
        trace: "webtrace 1\nparse 0 1 defer\nparse 0 2 defer\nexec 1\nw var 0 x\nexec 2\nr var 0 x\nend\n",
        races: "",
        groups: "",
        counts: Counts {
            actions: 4,
            accesses: 2,
            pairs: 1,
            races: 0,
            groups: 0,
            chains: 1,
            links: 3,
        },
    },
    // and not of two documents
    Row {
        trace: "webtrace 1\nparse 0 1 frame 1\nparse 0 2 defer\nparse 1 3 defer\nexec 2\nw var 0 x\nexec 3\nr var 0 x\nend\n",
        races: "race 1 6 8 wr 3 4 var 0 x\n",
        groups: "cover 1 1\ngroup 1 1 1\n",
        counts: Counts {
            actions: 5,
            accesses: 2,
            pairs: 1,
            races: 1,
            groups: 1,
            chains: 2,
            links: 4,
        },
    },
    // paths over several rules
    Row {
        trace: "webtrace 1\nparse 0 1 defer\nparse 0 2 sync\nexec 2\nw var 0 x\nset 1 0\nparse 0 3 plain\nw var 0 x\nexec 1\nr var 0 x\ntimer 1\nr var 0 x\nend\n",
        races: "race 1 8 12 wr 3 5 var 0 x\n",
        groups: "cover 1 1\ngroup 1 1 1\n",
        counts: Counts {
            actions: 6,
            accesses: 4,
            pairs: 5,
            races: 1,
            groups: 1,
            chains: 2,
            links: 5,
        },
    },
    // an async script that has run holds no parse step back
    Row {
        trace: "webtrace 1\nparse 0 1 async\nexec 1\nparse 0 2 plain\nend\n",
        races: "",
        groups: "",
        counts: Counts {
            actions: 3,
            accesses: 0,
            pairs: 0,
            races: 0,
            groups: 0,
            chains: 2,
            links: 2,
        },
    },
    // nor does a deferred one of another document
    Row {
        trace: "webtrace 1\nparse 0 1 frame 1\nparse 0 2 defer\nexec 2\nparse 1 3 plain\nend\n",
        races: "",
        groups: "",
        counts: Counts {
            actions: 4,
            accesses: 0,
            pairs: 0,
            races: 0,
            groups: 0,
            chains: 2,
            links: 3,
        },
    },
    // nor a deferred one that has not run
    Row {
        trace: "webtrace 1\nparse 0 1 defer\nparse 0 2 plain\nexec 1\nend\n",
        races: "",
        groups: "",
        counts: Counts {
            actions: 3,
            accesses: 0,
            pairs: 0,
            races: 0,
            groups: 0,
            chains: 1,
            links: 2,
        },
    },
    // a parse step of another document comes between
    Row {
        trace: "webtrace 1\nparse 0 1 frame 1\nparse 0 2 sync\nparse 1 3 plain\nexec 2\nend\n",
        races: "",
        groups: "",
        counts: Counts {
            actions: 4,
            accesses: 0,
            pairs: 0,
            races: 0,
            groups: 0,
            chains: 2,
            links: 3,
        },
    },
    // one that is not blocking runs after a later parse step
    Row {
        trace: "webtrace 1\nparse 0 1 async\nparse 0 2 plain\nexec 1\nend\n",
        races: "",
        groups: "",
        counts: Counts {
            actions: 3,
            accesses: 0,
            pairs: 0,
            races: 0,
            groups: 0,
            chains: 2,
            links: 2,
        },
    },
    // the blocking script runs first
    Row {
        trace: "webtrace 1\nparse 0 1 defer\nparse 0 2 inline\nexec 2\nexec 1\nend\n",
        races: "",
        groups: "",
        counts: Counts {
            actions: 4,
            accesses: 0,
            pairs: 0,
            races: 0,
            groups: 0,
            chains: 1,
            links: 3,
        },
    },
    // a deferred script of another document has run
    Row {
        trace: "webtrace 1\nparse 0 1 frame 1\nparse 1 2 defer\nparse 0 3 inline\nexec 2\nexec 3\nend\n",
        races: "",
        groups: "",
        counts: Counts {
            actions: 5,
            accesses: 0,
            pairs: 0,
            races: 0,
            groups: 0,
            chains: 2,
            links: 4,
        },
    },
    // an async script runs after a deferred one
    Row {
        trace: "webtrace 1\nparse 0 1 defer\nparse 0 2 async\nexec 1\nexec 2\nend\n",
        races: "",
        groups: "",
        counts: Counts {
            actions: 4,
            accesses: 0,
            pairs: 0,
            races: 0,
            groups: 0,
            chains: 2,
            links: 3,
        },
    },
    // a later deferred script of another document has run
    Row {
        trace: "webtrace 1\nparse 0 1 frame 1\nparse 0 2 defer\nparse 1 3 defer\nexec 3\nexec 2\nend\n",
        races: "",
        groups: "",
        counts: Counts {
            actions: 5,
            accesses: 0,
            pairs: 0,
            races: 0,
            groups: 0,
            chains: 2,
            links: 4,
        },
    },
];

pub(crate) static REFUSALS: [Refusal; 12] = [
    // a parse step after a deferred script of its document
    Refusal {
        trace: "webtrace 1\nparse 0 1 defer\nexec 1\nparse 0 2 plain\nend\n",
        line: 4,
        cause: "out-of-order",
    },
    // so is that of a frame
    Refusal {
        trace: "webtrace 1\nparse 0 1 defer\nexec 1\nparse 0 2 frame 1\nend\n",
        line: 4,
        cause: "out-of-order",
    },
    // a blocking script after a later parse step
    Refusal {
        trace: "webtrace 1\nparse 0 1 sync\nparse 0 2 plain\nexec 1\nend\n",
        line: 4,
        cause: "out-of-order",
    },
    Refusal {
        trace: "webtrace 1\nparse 0 1 inline\nparse 0 2 frame 1\nexec 1\nend\n",
        line: 4,
        cause: "out-of-order",
    },
    // a blocking script after a deferred one
    Refusal {
        trace: "webtrace 1\nparse 0 1 defer\nparse 0 2 inline\nexec 1\nexec 2\nend\n",
        line: 5,
        cause: "out-of-order",
    },
    // a deferred script after one that was parsed later
    Refusal {
        trace: "webtrace 1\nparse 0 1 defer\nparse 0 2 defer\nexec 2\nexec 1\nend\n",
        line: 5,
        cause: "out-of-order",
    },
    Refusal {
        trace: "webtrace 1\nparse 0 1 defer\nparse 0 2 defer\nparse 0 3 defer\nexec 1\nexec 3\nexec 2\nend\n",
        line: 7,
        cause: "out-of-order",
    },
    // naming is asked before order
    Refusal {
        trace: "webtrace 1\nparse 0 1 defer\nexec 1\nparse 0 1 plain\nend\n",
        line: 4,
        cause: "again",
    },
    Refusal {
        trace: "webtrace 1\nparse 0 1 sync\nexec 1\nparse 0 2 plain\nexec 1\nend\n",
        line: 5,
        cause: "again",
    },
    Refusal {
        trace: "webtrace 1\nparse 0 1 plain\nparse 0 2 plain\nexec 1\nend\n",
        line: 4,
        cause: "not-script",
    },
    // the first illegal line decides
    Refusal {
        trace: "webtrace 1\nparse 0 1 sync\nparse 0 2 plain\nexec 1\nnonsense\nend\n",
        line: 4,
        cause: "out-of-order",
    },
    Refusal {
        trace: "webtrace 1\nparse 0 1 sync\nparse 0 2 plain\nnonsense\nexec 1\nend\n",
        line: 4,
        cause: "bad-record",
    },
];
