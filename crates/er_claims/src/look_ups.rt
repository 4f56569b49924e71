//! What the list of accepted records says, by number. No look-up takes memory.

ghost use Rattle.std.specs.Prelude.{◌≡◌, ℕ, List, Some, None, option_map, map};
ghost use Rattle.std.specs.List.{All};
ghost use Rattle.er_numbers.specs.Numbers.{found};
ghost use Rattle.er_trace.specs.declared.record.Record.{Record};
ghost use Rattle.er_history.specs.LookUps as says;
ghost use Rattle.er_claims.specs.Fired.{AreCounted, number_of, sets};
ghost use Rattle.er_claims.specs.Claimed.{Answers, ClaimedAre, IsSet, rank_of, timeout_at};

use crate::claimed::{Claimed, FiredTimeout, Form, SetTimeout};
use crate::tables::numbered;
use er_trace::record::Kind;

/// Makers: the events whose pieces hold the records that declare the numbers.
impl Claimed {
    /// The event that made the element.
    pub fn maker_of_element(&self, element: u32) -> Option<u32>
        ensures { Answers self.now (λ h. says.maker_of_element h element) result }
    {
        let found = self.element(element)?;
        Some(found.maker)
    }

    /// The event that declared the document. Document 0 has none.
    pub fn maker_of_document(&self, doc: u32) -> Option<u32>
        ensures { Answers self.now (λ h. says.maker_of_document h doc) result }
    {
        self.tables.documents.find(doc)
    }

    /// The event that registered the handler.
    pub fn maker_of_handler(&self, handler: u32) -> Option<u32>
        ensures { Answers self.now (λ h. says.maker_of_handler h handler) result }
    {
        self.tables.handlers.find(handler)
    }

    /// The event that set the timeout.
    pub fn maker_of_timeout(&self, timeout: u32) -> Option<u32>
        ensures { Answers self.now (λ h. says.maker_of_timeout h timeout) result }
    {
        let found = self.tables.timeouts.find(timeout)?;
        Some(found.maker)
    }

    /// The event that set the interval.
    pub fn maker_of_interval(&self, interval: u32) -> Option<u32>
        ensures { Answers self.now (λ h. says.maker_of_interval h interval) result }
    {
        self.tables.intervals.find(interval)
    }

    /// The event that sent the request.
    pub fn maker_of_request(&self, request: u32) -> Option<u32>
        ensures { Answers self.now (λ h. says.maker_of_request h request) result }
    {
        self.tables.requests.find(request)
    }
}

/// Elements.
impl Claimed {
    /// The document in which the element was made.
    pub fn document_of(&self, element: u32) -> Option<u32>
        ensures { Answers self.now (λ h. says.document_of h element) result }
    {
        let found = self.element(element)?;
        Some(found.doc)
    }

    /// Whether a parse step made the element.
    pub fn is_static(&self, element: u32) -> bool
        ensures { Answers self.now (λ h. says.is_static h element) result }
    {
        match self.element(element) {
            Some(found) => found.is_static,
            None => false,
        }
    }

    /// The kind of a script element: `Inline`, `Sync`, `Defer` or `Async`.
    pub fn script_kind(&self, element: u32) -> Option<Kind>
        ensures { Answers self.now (λ h. says.script_kind h element) result }
    {
        let found = self.element(element)?;
        match found.form {
            Form::Kinded(Kind::Plain) => None,
            Form::Kinded(Kind::Image) => None,
            Form::Kinded(kind) => Some(kind),
            Form::Framing(_) => None,
        }
    }

    /// The document that the frame element declared.
    pub fn inner_of(&self, element: u32) -> Option<u32>
        ensures { Answers self.now (λ h. says.inner_of h element) result }
    {
        let found = self.element(element)?;
        match found.form {
            Form::Kinded(_) => None,
            Form::Framing(inner) => Some(inner),
        }
    }

    /// The parse step that made the element, if it is static.
    pub fn parse_action(&self, element: u32) -> Option<u32>
        ensures { Answers self.now (λ h. says.parse_action h element) result }
    {
        let found = self.element(element)?;
        if found.is_static {
            Some(found.piece)
        } else {
            None
        }
    }

    /// The event that is the run of the script element.
    pub fn run_of(&self, element: u32) -> Option<u32>
        ensures { Answers self.now (λ h. says.run_of h element) result }
    {
        self.tables.runs.find(element)
    }

    /// The dispatch of the element's first load event.
    pub fn eload_of(&self, element: u32) -> Option<u32>
        ensures { Answers self.now (λ h. says.eload_of h element) result }
    {
        self.tables.eloads.find(element)
    }
}

/// Documents.
impl Claimed {
    /// The frame element that declared the document.
    pub fn frame_of(&self, doc: u32) -> Option<u32>
        ensures { Answers self.now (λ h. says.frame_of h doc) result }
    {
        self.tables.frames.find(doc)
    }

    /// The dispatch of DOMContentLoaded of the document.
    pub fn dcl_of(&self, doc: u32) -> Option<u32>
        ensures { Answers self.now (λ h. says.dcl_of h doc) result }
    {
        self.tables.dcls.find(doc)
    }

    /// The dispatch of load of the document's window.
    pub fn load_of(&self, doc: u32) -> Option<u32>
        ensures { Answers self.now (λ h. says.load_of h doc) result }
    {
        self.tables.loads.find(doc)
    }
}

/// Timeouts and dispatches.
impl Claimed {
    /// The delay of the timeout.
    pub fn delay_of(&self, timeout: u32) -> Option<u32>
        ensures { Answers self.now (λ h. says.delay_of h timeout) result }
    {
        let found = self.tables.timeouts.find(timeout)?;
        Some(found.delay)
    }

    /// The piece that set the timeout.
    pub fn setting_piece(&self, timeout: u32) -> Option<u32>
        ensures { Answers self.now (λ h. says.setting_piece h timeout) result }
    {
        let set = self.tables.timeouts.find(timeout)?;
        Some(set.piece)
    }

    /// The event that is the callback of the timeout.
    pub fn timer_event(&self, timeout: u32) -> Option<u32>
        ensures { Answers self.now (λ h. says.timer_event h timeout) result }
    {
        self.tables.callbacks.find(timeout)
    }

    /// All timeouts that have fired, in order of firing.
    pub fn fired(&self) -> &[u32]
        ensures { Answers self.now (λ h. says.fired h) result.now }
    {
        self.fired.all()
    }

    /// The timeouts set in the event that have fired, in order of firing.
    pub fn fired_with(&self, event: u32) -> &[u32]
        ensures { Answers self.now (λ h. says.fired_with h event) result.now }
    {
        self.fired.with(event)
    }

    /// The timeout of this number, as it was set.
    pub fn timeout(&self, timeout: u32) -> Option<SetTimeout>
        ensures { result ≡ timeout_at self.now timeout }
    {
        let set = self.tables.timeouts.find(timeout)?;
        Some(numbered(timeout, set))
    }

    /// All timeouts that have fired, in order of firing, as they were set.
    pub fn fired_timeouts(&self) -> &[FiredTimeout]
        ensures numbers { Answers self.now (λ h. says.fired h) (map number_of (sets result.now)) }
        ensures set { (h : List Record) → ClaimedAre self.now h
            → All (IsSet self.now) (sets result.now) }
        ensures counted { (h : List Record) → ClaimedAre self.now h → AreCounted result.now }
    {
        self.fired.all_timeouts()
    }

    /// The timeouts set in the event that have fired, in order of firing, as they were set.
    pub fn fired_timeouts_with(&self, event: u32) -> &[FiredTimeout]
        ensures numbers { Answers self.now
            (λ h. says.fired_with h event) (map number_of (sets result.now)) }
        ensures set { (h : List Record) → ClaimedAre self.now h
            → All (IsSet self.now) (sets result.now) }
        ensures counted { (h : List Record) → ClaimedAre self.now h → AreCounted result.now }
    {
        self.fired.timeouts_with(event)
    }

    /// Whether both timeouts are set, the first in an earlier line.
    pub fn set_before(&self, first: u32, second: u32) -> bool
        ensures { Answers self.now (λ h. says.set_before h first second) result }
    {
        match (self.rank(first), self.rank(second)) {
            (Some(earlier), Some(later)) => earlier < later,
            _ => false,
        }
    }

    /// How many timeouts were set before this one.
    fn rank(&self, timeout: u32) -> Option<usize>
        ensures { result ≡ option_map rank_of (found self.now.tables.timeouts timeout) }
    {
        let set = self.tables.timeouts.find(timeout)?;
        Some(set.rank)
    }

    /// The begin of the dispatch.
    pub fn begin_event(&self, dispatch: u32) -> Option<u32>
        ensures { Answers self.now (λ h. says.begin_event h dispatch) result }
    {
        self.tables.begins.find(dispatch)
    }

    /// The close of the dispatch.
    pub fn close_event(&self, dispatch: u32) -> Option<u32>
        ensures { Answers self.now (λ h. says.close_event h dispatch) result }
    {
        self.tables.closes.find(dispatch)
    }
}
