//! What the list of accepted records says, by number. No look-up takes memory, and none goes
//! through the actions.
//!
//! A look-up answers `None` exactly where the list has nothing of the kind, also for a number that
//! is not declared.
//!
//! - the list: `actions`, `running`, `open_dispatch`, `inline_depth`
//! - an action: `begin_of`, `event_of`
//! - an event: `latest_piece`, `begun_as`; the timeouts set in it: `fired_with`,
//!   `fired_timeouts_with`; the jobs queued in it: `jobs_queued`, `begun_jobs_of`
//! - a number that was declared, its maker: `maker_of_element`, `maker_of_document`,
//!   `maker_of_handler`, `maker_of_timeout`, `maker_of_interval`, `maker_of_request`
//! - an element: `element`, `document_of`, `is_static`, `parse_action`; a script: `script_kind`,
//!   `run_of`; a frame: `inner_of`; its load: `eload_of`
//! - a document: `frame_of`, `dcl_of`, `load_of`; what came last in it: `last_parse`,
//!   `last_blocking_run`, `last_deferred_run`, `last_deferred_element`; all of a kind:
//!   `async_runs`, `static_closes`
//! - a timeout: `timeout`, `delay_of`, `setting_piece`, `timer_event`; two of them: `set_before`;
//!   all that have fired: `fired`, `fired_timeouts`
//! - a message: `message`, `message_piece`, `message_event`; all that have begun: `messages`,
//!   `begun_messages`
//! - an animation callback: `anim`, `anim_piece`, `anim_event`; all that have begun: `anims`,
//!   `begun_anims`
//! - a job: `job`, `job_piece`, `job_event`; all that have begun: `jobs`, `begun_jobs`
//! - two notes of tasks: `declared_before`
//! - an interval, a request: `last_tick`, `last_reply_close`
//! - a dispatch: `begin_event`, `close_event`, `suspended_by`; its handlers: `last_group`,
//!   `runs_in`, `group_below`; the jobs begun in it: `jobs_in`
//! - a target and a type: `last_element_close`, `last_window_close`

ghost use Rattle.std.specs.Prelude.{◌≡◌, ℕ, List, length, option_map, map, Some, None};
ghost use Rattle.std.specs.List.{All};
ghost use Rattle.er_trace.specs.declared.record.Record.{Record};
ghost use Rattle.er_history.specs.History.{told};
ghost use Rattle.er_history.specs.LookUps as says;
ghost use Rattle.er_claims.specs.Fired.{AreCounted, number_of, sets};
ghost use Rattle.er_claims.specs.Claimed.{IsSet, element_of, timeout_at};
ghost use Rattle.er_page.specs.LookUps.{begun_of, suspended_at};
ghost use Rattle.er_page.specs.Page.{Answers, HasBegun, HasEvent, IsPage};

use crate::page::Page;
use crate::piece::Begun;
use er_claims::claimed::{Element, FiredTimeout, SetTimeout};
use er_trace::name::Name;
use er_trace::record::{Kind, Record};

/// Actions, and the events that they are pieces of.
impl Page {
    /// How many actions have begun.
    pub fn actions(&self) -> u32
        ensures { Answers self.now (λ h. length (told h).actions) result }
    {
        self.pieces.count()
    }

    /// The running action, which is the last one.
    pub fn running(&self) -> Option<u32>
        ensures { Answers self.now (λ h. says.running_action h) result }
    {
        let now = self.pieces.now()?;
        Some(now.action)
    }

    /// The record that began the action.
    pub fn begin_of(&self, action: u32) -> &Record
        requires begun { ∥ HasBegun self.now action ∥₁ }
        ensures { Answers self.now (λ h. says.begin_of h action) (Some result.now) }
    {
        &self.pieces.piece(action).begin
    }

    /// The event that the action is a piece of.
    pub fn event_of(&self, action: u32) -> u32
        requires begun { ∥ HasBegun self.now action ∥₁ }
        ensures { Answers self.now (λ h. says.event_of h action) (Some result) }
    {
        self.pieces.piece(action).start.event
    }

    /// The event's last piece so far.
    pub fn latest_piece(&self, event: u32) -> u32
        requires is_event { ∥ HasEvent self.now event ∥₁ }
        ensures { Answers self.now (λ h. says.latest_piece h event) (Some result) }
    {
        let Some(piece) = self.pieces.latest.find(event) else {
            unreachable!()
        };
        piece
    }

    /// What the event is.
    pub fn begun_as(&self, event: u32) -> Begun
        requires is_event { ∥ HasEvent self.now event ∥₁ }
        ensures { Answers self.now (λ h. begun_of h event) (Some result) }
    {
        self.pieces.piece(event).start.begun
    }
}

/// Makers: the events whose pieces hold the records that declare the numbers.
impl Page {
    /// The event that made the element.
    pub fn maker_of_element(&self, element: u32) -> Option<u32>
        ensures { Answers self.now (λ h. says.maker_of_element h element) result }
    {
        self.claimed.maker_of_element(element)
    }

    /// The event that declared the document. Document 0 has none.
    pub fn maker_of_document(&self, doc: u32) -> Option<u32>
        ensures maker { Answers self.now (λ h. says.maker_of_document h doc) result }
        ensures root { doc ≡ 0 → Answers self.now (λ h. None) result }
    {
        self.claimed.maker_of_document(doc)
    }

    /// The event that registered the handler.
    pub fn maker_of_handler(&self, handler: u32) -> Option<u32>
        ensures { Answers self.now (λ h. says.maker_of_handler h handler) result }
    {
        self.claimed.maker_of_handler(handler)
    }

    /// The event that set the timeout.
    pub fn maker_of_timeout(&self, timeout: u32) -> Option<u32>
        ensures { Answers self.now (λ h. says.maker_of_timeout h timeout) result }
    {
        self.claimed.maker_of_timeout(timeout)
    }

    /// The event that set the interval.
    pub fn maker_of_interval(&self, interval: u32) -> Option<u32>
        ensures { Answers self.now (λ h. says.maker_of_interval h interval) result }
    {
        self.claimed.maker_of_interval(interval)
    }

    /// The event that sent the request.
    pub fn maker_of_request(&self, request: u32) -> Option<u32>
        ensures { Answers self.now (λ h. says.maker_of_request h request) result }
    {
        self.claimed.maker_of_request(request)
    }
}

/// Elements and documents.
impl Page {
    /// The element: its document, its form, and what made it.
    pub fn element(&self, element: u32) -> Option<Element>
        ensures { Answers self.now
            (λ h. says.element_made h element) (option_map element_of result) }
    {
        self.claimed.element(element)
    }

    /// The document in which the element was made.
    pub fn document_of(&self, element: u32) -> Option<u32>
        ensures { Answers self.now (λ h. says.document_of h element) result }
    {
        self.claimed.document_of(element)
    }

    /// Whether a parse step made the element.
    pub fn is_static(&self, element: u32) -> bool
        ensures { Answers self.now (λ h. says.is_static h element) result }
    {
        self.claimed.is_static(element)
    }

    /// The kind of a script element: `Inline`, `Sync`, `Defer` or `Async`.
    pub fn script_kind(&self, element: u32) -> Option<Kind>
        ensures { Answers self.now (λ h. says.script_kind h element) result }
    {
        self.claimed.script_kind(element)
    }

    /// The frame element that declared the document.
    pub fn frame_of(&self, doc: u32) -> Option<u32>
        ensures { Answers self.now (λ h. says.frame_of h doc) result }
    {
        self.claimed.frame_of(doc)
    }

    /// The document that the frame element declared.
    pub fn inner_of(&self, element: u32) -> Option<u32>
        ensures { Answers self.now (λ h. says.inner_of h element) result }
    {
        self.claimed.inner_of(element)
    }

    /// The parse step that made the element, if it is static.
    pub fn parse_action(&self, element: u32) -> Option<u32>
        ensures { Answers self.now (λ h. says.parse_action h element) result }
    {
        self.claimed.parse_action(element)
    }

    /// The event that is the run of the script element.
    pub fn run_of(&self, element: u32) -> Option<u32>
        ensures { Answers self.now (λ h. says.run_of h element) result }
    {
        self.claimed.run_of(element)
    }

    /// The dispatch of the element's first load event.
    pub fn eload_of(&self, element: u32) -> Option<u32>
        ensures { Answers self.now (λ h. says.eload_of h element) result }
    {
        self.claimed.eload_of(element)
    }

    /// The dispatch of DOMContentLoaded of the document.
    pub fn dcl_of(&self, doc: u32) -> Option<u32>
        ensures { Answers self.now (λ h. says.dcl_of h doc) result }
    {
        self.claimed.dcl_of(doc)
    }

    /// The dispatch of load of the document's window.
    pub fn load_of(&self, doc: u32) -> Option<u32>
        ensures { Answers self.now (λ h. says.load_of h doc) result }
    {
        self.claimed.load_of(doc)
    }
}

/// What came last in a document, and what ran in it. A blocking script is a static one of kind
/// `Inline` or `Sync`, a deferred one a static one of kind `Defer`.
impl Page {
    /// The latest parse step of the document.
    pub fn last_parse(&self, doc: u32) -> Option<u32>
        ensures { Answers self.now (λ h. says.last_parse h doc) result }
    {
        self.latest.last_parse(doc)
    }

    /// The event of the latest run of a blocking script of the document.
    pub fn last_blocking_run(&self, doc: u32) -> Option<u32>
        ensures { Answers self.now (λ h. says.last_blocking_run h doc) result }
    {
        self.latest.last_blocking_run(doc)
    }

    /// The event of the latest run of a deferred script of the document.
    pub fn last_deferred_run(&self, doc: u32) -> Option<u32>
        ensures { Answers self.now (λ h. says.last_deferred_run h doc) result }
    {
        self.latest.last_deferred_run(doc)
    }

    /// The script whose run is the latest of a deferred script of the document.
    pub fn last_deferred_element(&self, doc: u32) -> Option<u32>
        ensures { Answers self.now (λ h. says.last_deferred_element h doc) result }
    {
        self.latest.last_deferred_element(doc)
    }

    /// The events of the runs of its static scripts of kind `Async`, oldest first.
    pub fn async_runs(&self, doc: u32) -> &[u32]
        ensures { Answers self.now (λ h. says.async_runs h doc) result.now }
    {
        self.latest.async_runs(doc)
    }

    /// The closes of the first load events of its static elements that are not plain, oldest first.
    pub fn static_closes(&self, doc: u32) -> &[u32]
        ensures { Answers self.now (λ h. says.static_closes h doc) result.now }
    {
        self.latest.static_closes(doc)
    }
}

/// Timeouts, intervals and requests.
impl Page {
    /// The delay of the timeout.
    pub fn delay_of(&self, timeout: u32) -> Option<u32>
        ensures { Answers self.now (λ h. says.delay_of h timeout) result }
    {
        self.claimed.delay_of(timeout)
    }

    /// The event that is the callback of the timeout.
    pub fn timer_event(&self, timeout: u32) -> Option<u32>
        ensures { Answers self.now (λ h. says.timer_event h timeout) result }
    {
        self.claimed.timer_event(timeout)
    }

    /// The piece that set the timeout.
    pub fn setting_piece(&self, timeout: u32) -> Option<u32>
        ensures { Answers self.now (λ h. says.setting_piece h timeout) result }
    {
        self.claimed.setting_piece(timeout)
    }

    /// All timeouts that have fired, in order of firing.
    pub fn fired(&self) -> &[u32]
        ensures { Answers self.now (λ h. says.fired h) result.now }
    {
        self.claimed.fired()
    }

    /// The timeouts set in the event that have fired, in order of firing.
    pub fn fired_with(&self, event: u32) -> &[u32]
        ensures { Answers self.now (λ h. says.fired_with h event) result.now }
    {
        self.claimed.fired_with(event)
    }

    /// The timeout of this number, as it was set.
    pub fn timeout(&self, timeout: u32) -> Option<SetTimeout>
        ensures { result ≡ timeout_at self.now.claimed timeout }
    {
        self.claimed.timeout(timeout)
    }

    /// All timeouts that have fired, in order of firing, as they were set.
    pub fn fired_timeouts(&self) -> &[FiredTimeout]
        ensures numbers { Answers self.now (λ h. says.fired h) (map number_of (sets result.now)) }
        ensures set { (h : List Record) → IsPage self.now h
            → All (IsSet self.now.claimed) (sets result.now) }
        ensures counted { (h : List Record) → IsPage self.now h → AreCounted result.now }
    {
        self.claimed.fired_timeouts()
    }

    /// The timeouts set in the event that have fired, in order of firing, as they were set.
    pub fn fired_timeouts_with(&self, event: u32) -> &[FiredTimeout]
        ensures numbers { Answers self.now
            (λ h. says.fired_with h event) (map number_of (sets result.now)) }
        ensures set { (h : List Record) → IsPage self.now h
            → All (IsSet self.now.claimed) (sets result.now) }
        ensures counted { (h : List Record) → IsPage self.now h → AreCounted result.now }
    {
        self.claimed.fired_timeouts_with(event)
    }

    /// Whether both timeouts are set, the first in an earlier line.
    pub fn set_before(&self, t: u32, t2: u32) -> bool
        ensures { Answers self.now (λ h. says.set_before h t t2) result }
    {
        self.claimed.set_before(t, t2)
    }

    /// The event that is the latest callback of the interval.
    pub fn last_tick(&self, interval: u32) -> Option<u32>
        ensures { Answers self.now (λ h. says.last_tick h interval) result }
    {
        self.latest.last_tick(interval)
    }

    /// The close of the latest reply of the request that is closed.
    pub fn last_reply_close(&self, request: u32) -> Option<u32>
        ensures { Answers self.now (λ h. says.last_reply_close h request) result }
    {
        self.latest.last_reply_close(request)
    }
}

/// The stack, dispatches, and their targets.
impl Page {
    /// The dispatch on top of the stack.
    pub fn open_dispatch(&self) -> Option<u32>
        ensures { Answers self.now says.open_dispatch result }
    {
        self.stack.top()
    }

    /// How many inline dispatches are on the stack.
    pub fn inline_depth(&self) -> u32
        ensures { Answers self.now says.inline_depth result }
    {
        self.stack.depth()
    }

    /// The begin of the dispatch.
    pub fn begin_event(&self, dispatch: u32) -> Option<u32>
        ensures { Answers self.now (λ h. says.begin_event h dispatch) result }
    {
        self.claimed.begin_event(dispatch)
    }

    /// The close of the dispatch.
    pub fn close_event(&self, dispatch: u32) -> Option<u32>
        ensures { Answers self.now (λ h. says.close_event h dispatch) result }
    {
        self.claimed.close_event(dispatch)
    }

    /// The piece that the inline dispatch suspended, which is the one just before its begin.
    pub fn suspended_by(&self, dispatch: u32) -> Option<u32>
        ensures { Answers self.now (λ h. says.suspended_by h dispatch) result }
    {
        let action = self.claimed.begin_event(dispatch)?;
        let begin = self.pieces.begin(action)?;
        suspended_at(begin, action)
    }

    /// The greatest group of the dispatch that has run.
    pub fn last_group(&self, dispatch: u32) -> Option<u32>
        ensures { Answers self.now (λ h. says.last_group h dispatch) result }
    {
        self.latest.last_group(dispatch)
    }

    /// The events of the handlers of the group that have run, oldest first.
    pub fn runs_in(&self, dispatch: u32, group: u32) -> &[u32]
        ensures { Answers self.now (λ h. says.runs_in h dispatch group) result.now }
    {
        self.latest.runs_in(dispatch, group)
    }

    /// The greatest group of the dispatch that has run and is less.
    pub fn group_below(&self, dispatch: u32, group: u32) -> Option<u32>
        ensures { Answers self.now (λ h. says.group_below h dispatch group) result }
    {
        self.latest.group_below(dispatch, group)
    }

    /// The latest piece of a close of a dispatch of this type at the element, begun by
    /// `fire` or `inline`.
    pub fn last_element_close(&self, element: u32, name: &Name) -> Option<u32>
        ensures { Answers self.now (λ h. says.last_element_close h element name.now) result }
    {
        self.latest.last_element_close(element, name)
    }

    /// The latest piece of a close of a dispatch of this type at the window of the
    /// document, begun by `wfire`.
    pub fn last_window_close(&self, doc: u32, name: &Name) -> Option<u32>
        ensures { Answers self.now (λ h. says.last_window_close h doc name.now) result }
    {
        self.latest.last_window_close(doc, name)
    }
}

/// The piece that this record suspends where it begins this action.
fn suspended_at(begin: &Record, action: u32) -> Option<u32>
    ensures { result ≡ suspended_at begin.now action }
{
    match begin {
        Record::Inline { .. } => Some(action.saturating_sub(1)),
        _ => None,
    }
}
