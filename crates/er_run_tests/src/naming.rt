//! Rows of naming and nesting around inline dispatches.

use crate::row::Refusal;

pub(crate) static REFUSALS: [Refusal; 13] = [
    // an inline dispatch before any action
    Refusal {
        trace: "webtrace 1\ninline 1 1 a\nend\n",
        line: 2,
        cause: "unknown",
    },
    // one in a parse step
    Refusal {
        trace: "webtrace 1\nparse 0 1 plain\ninline 1 1 a\nend\n",
        line: 3,
        cause: "misplaced",
    },
    // one in the begin of a dispatch
    Refusal {
        trace: "webtrace 1\nparse 0 1 plain\nfire 1 1 click\ninline 2 1 a\nend\n",
        line: 4,
        cause: "misplaced",
    },
    // the close of a dispatch below an inline one that its handler called
    Refusal {
        trace: "webtrace 1\nparse 0 1 plain\non 7\nfire 1 1 click\nrun 1 0 7\ninline 2 1 focus\nclose 1\nend\n",
        line: 7,
        cause: "misplaced",
    },
    // a back without a close
    Refusal {
        trace: "webtrace 1\nparse 0 1 inline\nexec 1\ninline 1 1 a\nback 1\nend\n",
        line: 5,
        cause: "misplaced",
    },
    // a back of a dispatch that is not inline
    Refusal {
        trace: "webtrace 1\nparse 0 1 plain\nfire 1 1 a\nclose 1\nback 1\nend\n",
        line: 5,
        cause: "misplaced",
    },
    // a back of a dispatch below the top
    Refusal {
        trace: "webtrace 1\nparse 0 1 inline\nexec 1\ninline 1 1 a\nclose 1\ninline 2 1 b\nclose 2\nback 1\nend\n",
        line: 8,
        cause: "misplaced",
    },
    // a handler behind the close of an inline dispatch
    Refusal {
        trace: "webtrace 1\nparse 0 1 inline\nexec 1\non 1\ninline 1 1 a\nclose 1\nrun 1 0 1\nend\n",
        line: 7,
        cause: "misplaced",
    },
    // a second close
    Refusal {
        trace: "webtrace 1\nparse 0 1 inline\nexec 1\ninline 1 1 a\nclose 1\nclose 1\nend\n",
        line: 6,
        cause: "misplaced",
    },
    // a script between the close and the back
    Refusal {
        trace: "webtrace 1\nparse 0 1 inline\nparse 0 2 async\nexec 2\ninline 1 1 a\nclose 1\nexec 1\nend\n",
        line: 7,
        cause: "misplaced",
    },
    // a dispatch number again
    Refusal {
        trace: "webtrace 1\nparse 0 1 inline\nexec 1\ninline 1 1 a\nclose 1\nback 1\ninline 1 1 a\nend\n",
        line: 7,
        cause: "again",
    },
    // an unknown element
    Refusal {
        trace: "webtrace 1\nparse 0 1 inline\nexec 1\ninline 1 9 a\nend\n",
        line: 4,
        cause: "unknown",
    },
    // a second back
    Refusal {
        trace: "webtrace 1\nparse 0 1 inline\nexec 1\ninline 1 1 a\nclose 1\nback 1\nback 1\nend\n",
        line: 7,
        cause: "misplaced",
    },
];
