//! The look-ups. Each answers what the list of actions says, also for numbers that were
//! never declared. None takes memory, and none goes through the actions: `group_below`
//! goes through those groups of the dispatch that are not less, from the greatest, and
//! each other one asks a table or two.

ghost use Rattle.std.specs.Prelude.{◌==◌, nat_lt, true};
ghost use Rattle.er_history.specs.Rules.{is_blocking, is_deferred};
ghost use Rattle.er_history.specs.Latest.{greatest_group};
ghost use Rattle.er_history.specs.Kinds.{is_step_of, is_run_of, is_static_async, is_tick_of, closes, is_reply_of, is_static_load_of, is_handler_of};
ghost use Rattle.er_latest.specs.Latest.{Answers, closes_at_element, closes_at_window, events_in_order, last_event, last_script};

use crate::latest::Latest;
use crate::{groups, lists, named};
use er_trace::name::Name;

// What came last in a document.
impl Latest {
    /// The latest parse step.
    pub fn last_parse(&self, doc: u32) -> Option<u32>
        ensures { Answers self.now (last_event (is_step_of doc)) result }
    {
        self.steps.find(doc)
    }

    /// The event of the latest run of a blocking script.
    pub fn last_blocking_run(&self, doc: u32) -> Option<u32>
        ensures { Answers self.now (last_event (is_run_of is_blocking doc)) result }
    {
        self.blocking.find(doc)
    }

    /// The event of the latest run of a deferred script.
    pub fn last_deferred_run(&self, doc: u32) -> Option<u32>
        ensures { Answers self.now (last_event (is_run_of is_deferred doc)) result }
    {
        self.deferred.find(doc)
    }

    /// That script.
    pub fn last_deferred_element(&self, doc: u32) -> Option<u32>
        ensures { Answers self.now (last_script (is_run_of is_deferred doc)) result }
    {
        self.scripts.find(doc)
    }

    /// The events of the runs of static async scripts, oldest first.
    pub fn async_runs(&self, doc: u32) -> &[u32]
        ensures { Answers self.now (events_in_order (is_run_of is_static_async doc)) result.now }
    {
        lists::of(&self.asyncs, doc)
    }

    /// The events of the closes of the first load events of static elements that are not plain,
    /// oldest first.
    pub fn static_closes(&self, doc: u32) -> &[u32]
        ensures { Answers self.now (events_in_order (closes (is_static_load_of doc))) result.now }
    {
        lists::of(&self.statics, doc)
    }
}

// What came last of an interval and of a request.
impl Latest {
    /// The event of the latest tick.
    pub fn last_tick(&self, interval: u32) -> Option<u32>
        ensures { Answers self.now (last_event (is_tick_of interval)) result }
    {
        self.ticks.find(interval)
    }

    /// The event of the close of the latest closed reply.
    pub fn last_reply_close(&self, request: u32) -> Option<u32>
        ensures { Answers self.now (last_event (closes (is_reply_of request))) result }
    {
        self.replies.find(request)
    }
}

// What came last in a dispatch and at a target.
impl Latest {
    /// The greatest group that has run.
    pub fn last_group(&self, dispatch: u32) -> Option<u32>
        ensures { Answers self.now (λ actions. greatest_group dispatch (λ k. true) actions) result }
    {
        groups::greatest(lists::of(&self.groups, dispatch))
    }

    /// The greatest group that has run and is less.
    pub fn group_below(&self, dispatch: u32, group: u32) -> Option<u32>
        ensures { Answers self.now (greatest_group dispatch (λ k. nat_lt k group)) result }
    {
        groups::below(lists::of(&self.groups, dispatch), group)
    }

    /// The events of the handlers of the group that have run, oldest first.
    pub fn runs_in(&self, dispatch: u32, group: u32) -> &[u32]
        ensures { Answers self.now
            (events_in_order (is_handler_of dispatch (λ k. k == group))) result.now }
    {
        lists::of(&self.runs, (dispatch, group))
    }

    /// The latest piece of a close of a dispatch of this type at the element, begun by
    /// `fire` or `inline`.
    pub fn last_element_close(&self, element: u32, name: &Name) -> Option<u32>
        ensures { Answers self.now (λ actions. closes_at_element element name.now actions) result }
    {
        named::of(&self.elements, name, element)
    }

    /// The latest piece of a close of a dispatch of this type at the window of the
    /// document, begun by `wfire`.
    pub fn last_window_close(&self, doc: u32, name: &Name) -> Option<u32>
        ensures { Answers self.now (λ actions. closes_at_window doc name.now actions) result }
    {
        named::of(&self.windows, name, doc)
    }
}
