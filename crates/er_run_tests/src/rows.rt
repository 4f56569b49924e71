//! Worked rows: each function answers a small trace with its report, and its contract is that the
//! definitions give this report for the trace's records.

ghost use Rattle.er_run_tests.specs.Rows.{TimeoutsThatRace, TimeoutsInOrder, EqualDelays, DelaysThatDisagree, TwoSetters, Repeats, OneAction, TwoReads, ParseSteps, NothingAtAll, BlockingScripts, AsyncScripts, DeferredScripts, OtherDocuments, OneClass, LaterRepresentative, JoinedSetters, CallbacksThatSet};
ghost use Rattle.er_trace.specs.declared.version.Version.TheVariants.{One, Two};

/// A legal trace, and its report.
#[derive(Drop)]
pub struct Worked {
    pub trace: &'static str,
    pub report: &'static str,
}

/// Two timeouts that race.
pub fn timeouts_that_race() -> Worked
    ensures { TimeoutsThatRace result.trace.now result.report.now }
{
    Worked {
        trace: "webtrace 1\nparse 0 1 plain\nset 1 10\nset 2 0\ntimer 2\nw var 0 x\ntimer 1\nr var 0 x\nend\n",
        report: "report 1\nrace 1 6 8 wr 1 2 var 0 x\ncover 1 1\ngroup 1 1 1\nactions 3\naccesses 2\npairs 1\nraces 1\ngroups 1\nchains 2\nlinks 2\nend\n",
    }
}

/// Set first, and with no longer delay.
pub fn timeouts_in_order() -> Worked
    ensures { TimeoutsInOrder result.trace.now result.report.now }
{
    Worked {
        trace: "webtrace 1\nparse 0 1 plain\nset 1 0\nset 2 10\ntimer 1\nw var 0 x\ntimer 2\nr var 0 x\nend\n",
        report: "report 1\nactions 3\naccesses 2\npairs 1\nraces 0\ngroups 0\nchains 1\nlinks 2\nend\n",
    }
}

/// Equal delays.
pub fn equal_delays() -> Worked
    ensures { EqualDelays result.trace.now result.report.now }
{
    Worked {
        trace: "webtrace 1\nparse 0 1 plain\nset 1 5\nset 2 5\ntimer 1\nw var 0 x\ntimer 2\nr var 0 x\nend\n",
        report: "report 1\nactions 3\naccesses 2\npairs 1\nraces 0\ngroups 0\nchains 1\nlinks 2\nend\n",
    }
}

/// Recorded against the delays.
pub fn delays_that_disagree() -> Worked
    ensures { DelaysThatDisagree result.trace.now result.report.now }
{
    Worked {
        trace: "webtrace 1\nparse 0 1 plain\nset 1 0\nset 2 10\ntimer 2\nw var 0 x\ntimer 1\nr var 0 x\nend\n",
        report: "report 1\nrace 1 6 8 wr 1 2 var 0 x\ncover 1 1\ngroup 1 1 1\nactions 3\naccesses 2\npairs 1\nraces 1\ngroups 1\nchains 2\nlinks 2\nend\n",
    }
}

/// Set by two events.
pub fn two_setters() -> Worked
    ensures { TwoSetters result.trace.now result.report.now }
{
    Worked {
        trace: "webtrace 1\nparse 0 1 plain\nset 1 5\nparse 0 2 plain\nset 2 5\ntimer 1\nw var 0 x\ntimer 2\nw var 0 x\nend\n",
        report: "report 1\nrace 1 7 9 ww 2 3 var 0 x\ncover 1 1\ngroup 1 1 1\nactions 4\naccesses 2\npairs 1\nraces 1\ngroups 1\nchains 2\nlinks 3\nend\n",
    }
}

/// A repeat is not kept; a read and a write of one action are two accesses.
pub fn repeats() -> Worked
    ensures { Repeats result.trace.now result.report.now }
{
    Worked {
        trace: "webtrace 1\nparse 0 1 plain\nset 1 9\nset 2 0\ntimer 2\nr var 0 x\nr var 0 x\nw var 0 x\ntimer 1\nw var 0 x\nend\n",
        report: "report 1\nrace 1 6 10 rw 1 2 var 0 x\nrace 2 8 10 ww 1 2 var 0 x\ncover 1 1\ncover 2 1\ngroup 1 1 2\nactions 3\naccesses 3\npairs 2\nraces 2\ngroups 1\nchains 2\nlinks 2\nend\n",
    }
}

/// The accesses of one action make no pair.
pub fn one_action() -> Worked
    ensures { OneAction result.trace.now result.report.now }
{
    Worked {
        trace: "webtrace 1\nparse 0 1 plain\nw var 0 x\nr var 0 x\nend\n",
        report: "report 1\nactions 1\naccesses 2\npairs 0\nraces 0\ngroups 0\nchains 1\nlinks 0\nend\n",
    }
}

/// Two reads make no pair.
pub fn two_reads() -> Worked
    ensures { TwoReads result.trace.now result.report.now }
{
    Worked {
        trace: "webtrace 1\nparse 0 1 plain\nset 1 9\nset 2 0\ntimer 2\nr var 0 x\ntimer 1\nr var 0 x\nend\n",
        report: "report 1\nactions 3\naccesses 2\npairs 0\nraces 0\ngroups 0\nchains 2\nlinks 2\nend\n",
    }
}

/// Parse steps are in order, and before a timeout that a later one set.
pub fn parse_steps() -> Worked
    ensures { ParseSteps result.trace.now result.report.now }
{
    Worked {
        trace: "webtrace 1\nparse 0 1 plain\nw var 0 a%20b\nparse 0 2 plain\nr var 0 a%20b\nset 1 0\ntimer 1\nw var 0 a%20b\nend\n",
        report: "report 1\nactions 3\naccesses 3\npairs 3\nraces 0\ngroups 0\nchains 1\nlinks 2\nend\n",
    }
}

/// Nothing at all.
pub fn nothing_at_all() -> Worked
    ensures { NothingAtAll result.trace.now result.report.now }
{
    Worked {
        trace: "webtrace 1\nend\n",
        report: "report 1\nactions 0\naccesses 0\npairs 0\nraces 0\ngroups 0\nchains 0\nlinks 0\nend\n",
    }
}

/// A blocking script runs before a later parse step.
pub fn blocking_scripts() -> Worked
    ensures { BlockingScripts result.trace.now result.report.now }
{
    Worked {
        trace: "webtrace 1\nparse 0 1 sync\nexec 1\nw var 0 x\nparse 0 2 plain\nr var 0 x\nend\n",
        report: "report 1\nactions 3\naccesses 2\npairs 1\nraces 0\ngroups 0\nchains 1\nlinks 2\nend\n",
    }
}

/// An async one does not.
pub fn async_scripts() -> Worked
    ensures { AsyncScripts result.trace.now result.report.now }
{
    Worked {
        trace: "webtrace 1\nparse 0 1 async\nexec 1\nw var 0 x\nparse 0 2 plain\nr var 0 x\nend\n",
        report: "report 1\nrace 1 4 6 wr 1 2 var 0 x\ncover 1 1\ngroup 1 1 1\nactions 3\naccesses 2\npairs 1\nraces 1\ngroups 1\nchains 2\nlinks 2\nend\n",
    }
}

/// Deferred scripts run as they were parsed, after each blocking one.
pub fn deferred_scripts() -> Worked
    ensures { DeferredScripts result.trace.now result.report.now }
{
    Worked {
        trace: "webtrace 1\nparse 0 1 defer\nparse 0 2 inline\nexec 2\nw var 0 x\nparse 0 3 defer\nexec 1\nw var 0 x\nexec 3\nr var 0 x\nend\n",
        report: "report 1\nactions 6\naccesses 3\npairs 3\nraces 0\ngroups 0\nchains 1\nlinks 5\nend\n",
    }
}

/// The step that declared a document is before its parse steps, which are in no order with others
/// of the first.
pub fn other_documents() -> Worked
    ensures { OtherDocuments result.trace.now result.report.now }
{
    Worked {
        trace: "webtrace 1\nparse 0 1 frame 1\nw var 0 x\nparse 1 2 plain\nw var 0 x\nparse 0 3 plain\nr var 0 x\nend\n",
        report: "report 1\nrace 1 5 7 wr 1 2 var 0 x\ncover 1 1\ngroup 1 1 1\nactions 3\naccesses 3\npairs 3\nraces 1\ngroups 1\nchains 2\nlinks 2\nend\n",
    }
}

/// Two races of one pair of actions are one class.
pub fn one_class() -> Worked
    ensures { OneClass result.trace.now result.report.now }
{
    Worked {
        trace: "webtrace 1\nparse 0 1 inline\nexec 1\nset 1 10\nset 2 0\ntimer 2\nw var 0 x\nw var 0 y\ntimer 1\nw var 0 x\nr var 0 y\nend\n",
        report: "report 1\nrace 1 7 10 ww 2 3 var 0 x\nrace 2 8 11 wr 2 3 var 0 y\ncover 1 1\ncover 2 1\ngroup 1 1 2\nactions 4\naccesses 4\npairs 2\nraces 2\ngroups 1\nchains 2\nlinks 3\nend\n",
    }
}

/// A later race covers the first.
pub fn later_representative() -> Worked
    ensures { LaterRepresentative result.trace.now result.report.now }
{
    Worked {
        trace: "webtrace 1\nparse 0 1 inline\nexec 1\nset 1 10\nset 2 0\ntimer 2\nw var 0 x\nset 3 0\ntimer 3\nw var 0 f\ntimer 1\nr var 0 f\nset 4 0\ntimer 4\nr var 0 x\nend\n",
        report: "report 1\nrace 1 7 15 wr 2 5 var 0 x\nrace 2 10 12 wr 3 4 var 0 f\ncover 1 1\ncover 2 1\ngroup 1 2 2\nactions 6\naccesses 4\npairs 2\nraces 2\ngroups 1\nchains 2\nlinks 5\nend\n",
    }
}

/// Set in two parse steps: in version 2 these are in order.
pub fn joined_setters() -> Worked
    ensures { JoinedSetters Two 5 result.trace.now result.report.now }
{
    Worked {
        trace: "webtrace 2\nparse 0 1 plain\nset 1 5\nparse 0 2 plain\nset 2 5\ntimer 1\nw var 0 x\ntimer 2\nr var 0 x\nend\n",
        report: "report 1\nactions 4\naccesses 2\npairs 1\nraces 0\ngroups 0\nchains 2\nlinks 4\nend\n",
    }
}

/// The same in version 1.
pub fn joined_setters_before() -> Worked
    ensures { JoinedSetters One 5 result.trace.now result.report.now }
{
    Worked {
        trace: "webtrace 1\nparse 0 1 plain\nset 1 5\nparse 0 2 plain\nset 2 5\ntimer 1\nw var 0 x\ntimer 2\nr var 0 x\nend\n",
        report: "report 1\nrace 1 7 9 wr 2 3 var 0 x\ncover 1 1\ngroup 1 1 1\nactions 4\naccesses 2\npairs 1\nraces 1\ngroups 1\nchains 2\nlinks 3\nend\n",
    }
}

/// The first has the longer delay.
pub fn joined_setters_that_disagree() -> Worked
    ensures { JoinedSetters Two 6 result.trace.now result.report.now }
{
    Worked {
        trace: "webtrace 2\nparse 0 1 plain\nset 1 6\nparse 0 2 plain\nset 2 5\ntimer 1\nw var 0 x\ntimer 2\nr var 0 x\nend\n",
        report: "report 1\nrace 1 7 9 wr 2 3 var 0 x\ncover 1 1\ngroup 1 1 1\nactions 4\naccesses 2\npairs 1\nraces 1\ngroups 1\nchains 2\nlinks 3\nend\n",
    }
}

/// The order of two callbacks rests on that of the callbacks that set them.
pub fn callbacks_that_set() -> Worked
    ensures { CallbacksThatSet Two result.trace.now result.report.now }
{
    Worked {
        trace: "webtrace 2\nparse 0 1 plain\nset 1 0\nset 2 0\ntimer 1\nset 3 4\ntimer 2\nset 4 4\ntimer 3\nw var 0 x\ntimer 4\nw var 0 x\nend\n",
        report: "report 1\nactions 5\naccesses 2\npairs 1\nraces 0\ngroups 0\nchains 1\nlinks 4\nend\n",
    }
}

/// The same in version 1.
pub fn callbacks_that_set_before() -> Worked
    ensures { CallbacksThatSet One result.trace.now result.report.now }
{
    Worked {
        trace: "webtrace 1\nparse 0 1 plain\nset 1 0\nset 2 0\ntimer 1\nset 3 4\ntimer 2\nset 4 4\ntimer 3\nw var 0 x\ntimer 4\nw var 0 x\nend\n",
        report: "report 1\nrace 1 10 12 ww 3 4 var 0 x\ncover 1 1\ngroup 1 1 1\nactions 5\naccesses 2\npairs 1\nraces 1\ngroups 1\nchains 2\nlinks 4\nend\n",
    }
}

/// All of them.
pub fn all() -> [Worked; 21] {
    [
        timeouts_that_race(),
        timeouts_in_order(),
        equal_delays(),
        delays_that_disagree(),
        two_setters(),
        repeats(),
        one_action(),
        two_reads(),
        parse_steps(),
        nothing_at_all(),
        blocking_scripts(),
        async_scripts(),
        deferred_scripts(),
        other_documents(),
        one_class(),
        later_representative(),
        joined_setters(),
        joined_setters_before(),
        joined_setters_that_disagree(),
        callbacks_that_set(),
        callbacks_that_set_before(),
    ]
}
