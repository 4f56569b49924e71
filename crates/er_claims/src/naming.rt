//! Which records use or declare what, against what is known.

ghost use Rattle.std.specs.Prelude.{◌≡◌, ℕ, ◌||◌, ◌==◌, Bool, List, Option, option_map, is_some};
ghost use Rattle.std.specs.List.{list_any};
ghost use Rattle.er_trace.specs.declared.record.Record.{Record};
ghost use Rattle.er_history.specs.History.{told};
ghost use Rattle.er_history.specs.LookUps.{element_made};
ghost use Rattle.er_history.specs.Naming as naming;
ghost use Rattle.er_claims.specs.Claimed.{Answers, declares_either, element_of, number_again, unknown_number};

use crate::claimed::{Claimed, Element, Form};
use er_trace::record::{Kind, Record};

impl Claimed {
    /// Whether the record uses a number that no earlier record declared. That of a message, an
    /// animation callback or a job is not asked here.
    pub fn is_unknown(&self, rec: &Record) -> bool
        ensures { Answers self.now (λ h. unknown_number h rec.now) result }
    {
        match rec {
            Record::Parse { doc, .. } => !self.knows_document(*doc),
            Record::ParseFrame { doc, .. } => !self.knows_document(*doc),
            Record::New { doc, .. } => !self.knows_document(*doc),
            Record::NewFrame { doc, .. } => !self.knows_document(*doc),
            Record::Dcl { doc, .. } => !self.knows_document(*doc),
            Record::Load { doc, .. } => !self.knows_document(*doc),
            Record::Wfire { doc, .. } => !self.knows_document(*doc),
            Record::Exec { element } => !self.has_element(*element),
            Record::Eload { element, .. } => !self.has_element(*element),
            Record::Fire { element, .. } => !self.has_element(*element),
            Record::Inline { element, .. } => !self.has_element(*element),
            Record::Timer { timeout } => !self.tables.timeouts.has(*timeout),
            Record::Tick { interval } => !self.tables.intervals.has(*interval),
            Record::Reply { request, .. } => !self.tables.requests.has(*request),
            Record::Run {
                dispatch,
                handler,
                ..
            } => !self.has_begun(*dispatch) || !self.tables.handlers.has(*handler),
            Record::Close { dispatch } => !self.has_begun(*dispatch),
            Record::Back { dispatch } => !self.has_begun(*dispatch),
            Record::On { .. } => false,
            Record::Set { .. } => false,
            Record::Every { .. } => false,
            Record::Send { .. } => false,
            Record::Post { .. } => false,
            Record::Ask { .. } => false,
            Record::Queue { .. } => false,
            Record::Message { .. } => false,
            Record::Anim { .. } => false,
            Record::Job { .. } => false,
            Record::Access { .. } => false,
        }
    }

    /// Whether it declares or starts what was declared or started before. That of a message, an
    /// animation callback or a job is not asked here.
    pub fn is_again(&self, rec: &Record) -> bool
        ensures { Answers self.now (λ h. number_again h rec.now) result }
    {
        match rec {
            Record::Parse { element, .. } => self.has_element(*element),
            Record::New { element, .. } => self.has_element(*element),
            Record::ParseFrame { element, inner, .. } => self.has_frame(*element, *inner),
            Record::NewFrame { element, inner, .. } => self.has_frame(*element, *inner),
            Record::Exec { element } => self.tables.runs.has(*element),
            Record::Timer { timeout } => self.tables.callbacks.has(*timeout),
            Record::Dcl { dispatch, doc } => {
                self.has_begun(*dispatch) || self.tables.dcls.has(*doc)
            }
            Record::Load { dispatch, doc } => {
                self.has_begun(*dispatch) || self.tables.loads.has(*doc)
            }
            Record::Eload { dispatch, element } => {
                self.has_begun(*dispatch) || self.tables.eloads.has(*element)
            }
            Record::Fire { dispatch, .. } => self.has_begun(*dispatch),
            Record::Wfire { dispatch, .. } => self.has_begun(*dispatch),
            Record::Reply { dispatch, .. } => self.has_begun(*dispatch),
            Record::Inline { dispatch, .. } => self.has_begun(*dispatch),
            Record::On { handler } => self.tables.handlers.has(*handler),
            Record::Set { timeout, .. } => self.tables.timeouts.has(*timeout),
            Record::Every { interval, .. } => self.tables.intervals.has(*interval),
            Record::Send { request } => self.tables.requests.has(*request),
            Record::Post { .. } => false,
            Record::Ask { .. } => false,
            Record::Queue { .. } => false,
            Record::Message { .. } => false,
            Record::Anim { .. } => false,
            Record::Job { .. } => false,
            Record::Tick { .. } => false,
            Record::Run { .. } => false,
            Record::Close { .. } => false,
            Record::Back { .. } => false,
            Record::Access { .. } => false,
        }
    }

    /// Whether it runs an element that is no script.
    pub fn is_not_script(&self, rec: &Record) -> bool
        ensures { Answers self.now (λ h. naming.not_script (told h) rec.now) result }
    {
        match rec {
            Record::Exec { element } => !is_script(self.element(*element)),
            Record::Parse { .. } => false,
            Record::ParseFrame { .. } => false,
            Record::Timer { .. } => false,
            Record::Tick { .. } => false,
            Record::Dcl { .. } => false,
            Record::Load { .. } => false,
            Record::Eload { .. } => false,
            Record::Fire { .. } => false,
            Record::Wfire { .. } => false,
            Record::Reply { .. } => false,
            Record::Inline { .. } => false,
            Record::Run { .. } => false,
            Record::Close { .. } => false,
            Record::Back { .. } => false,
            Record::Message { .. } => false,
            Record::Anim { .. } => false,
            Record::Job { .. } => false,
            Record::New { .. } => false,
            Record::NewFrame { .. } => false,
            Record::On { .. } => false,
            Record::Set { .. } => false,
            Record::Every { .. } => false,
            Record::Send { .. } => false,
            Record::Post { .. } => false,
            Record::Ask { .. } => false,
            Record::Queue { .. } => false,
            Record::Access { .. } => false,
        }
    }

    /// The element of this number.
    pub fn element(&self, element: u32) -> Option<Element>
        ensures { Answers self.now (λ h. element_made h element) (option_map element_of result) }
    {
        self.tables.elements.find(element)
    }

    /// Document 0 is known from the start.
    fn knows_document(&self, doc: u32) -> bool
        ensures { Answers self.now (λ h. naming.knows_document h doc) result }
    {
        doc == 0 || self.tables.documents.has(doc)
    }

    fn has_element(&self, element: u32) -> bool
        ensures { Answers self.now (list_any (naming.declares_element element)) result }
    {
        self.tables.elements.has(element)
    }

    /// Whether the element or the document is declared.
    fn has_frame(&self, element: u32, inner: u32) -> bool
        ensures { Answers self.now (declares_either element inner) result }
    {
        self.has_element(element) || self.knows_document(inner)
    }

    fn has_begun(&self, dispatch: u32) -> bool
        ensures { Answers self.now (list_any (naming.begins_dispatch dispatch)) result }
    {
        self.tables.begins.has(dispatch)
    }
}

fn is_script(element: Option<Element>) -> bool
    ensures { result ≡ naming.is_script (option_map element_of element) }
{
    match element {
        Some(element) => match element.form {
            Form::Kinded(kind) => is_script_kind(kind),
            Form::Framing(_) => false,
        },
        None => false,
    }
}

fn is_script_kind(kind: Kind) -> bool
    ensures { result ≡ naming.is_script_kind kind }
{
    match kind {
        Kind::Plain => false,
        Kind::Image => false,
        Kind::Inline => true,
        Kind::Sync => true,
        Kind::Async => true,
        Kind::Defer => true,
    }
}
