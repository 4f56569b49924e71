//! Reads an event off a page.

ghost use Rattle.std.specs.Prelude.{◌≡◌, ◌<◌, List, Some, None, length, option_map};
ghost use Rattle.er_trace.specs.declared.record.Record.{Record};
ghost use Rattle.er_history.specs.History.{told, action_at, Action};
ghost use Rattle.er_page.specs.Page.{IsPage, IsSomePage, HasBegun};
ghost use Rattle.er_reasons.specs.Shown.{delivered, dispatched, what_shown, event_shown};
ghost use Rattle.er_history.specs.LookUps.{maker_of_handler};
ghost use Rattle.er_reasons.specs.Read.{delivery_read, dispatch_by, dispatch_read, begun_what, handler_what, close_what, what_read};

use crate::event::{Delivery, Dispatch, Event, What};
use er_page::page::Page;
use er_trace::record::Record;

/// The event that the action is a piece of.
pub(crate) fn event_at<'a>(page: &'a Page, action: u32) -> Event<'a>
    requires begun { ∥ HasBegun page.now action ∥₁ }
    ensures { (h : List Record) (a : Action) → IsPage page.now h
        → action_at action (told h).actions ≡ Some a → event_shown h result ≡ a.event }
{
    let number = page.event_of(action);
    let begin = page.begin_of(number);
    Event {
        number,
        what: what_of(page, number, begin),
    }
}

/// What the event is that this record began as this action.
fn what_of<'a>(page: &'a Page, action: u32, begin: &'a Record) -> What<'a>
    requires some { ∥ IsSomePage page.now ∥₁ }
    ensures { (h : List Record) → IsPage page.now h
        → what_shown h result ≡ what_read h action begin.now }
{
    match begin {
        Record::Parse { doc, .. } => What::ParseStep {
            doc: *doc,
            maker: page.maker_of_document(*doc),
        },
        Record::ParseFrame { doc, .. } => What::ParseStep {
            doc: *doc,
            maker: page.maker_of_document(*doc),
        },
        Record::Exec { element } => What::ScriptRun {
            element: *element,
            made: page.element(*element),
        },
        Record::Timer { timeout } => What::TimeoutRun { timeout: *timeout },
        Record::Tick { interval } => What::TickRun {
            interval: *interval,
            maker: page.maker_of_interval(*interval),
        },
        Record::Message { message } => What::MessageRun { message: *message },
        Record::Anim { anim } => What::AnimRun { anim: *anim },
        Record::Job { job } => What::JobRun {
            job: *job,
            event: action,
        },
        Record::Run {
            dispatch,
            group,
            handler,
        } => handler_of(page, *dispatch, *group, *handler),
        Record::Close { dispatch } => close_of(page, *dispatch),
        Record::Dcl { dispatch, .. } => begin_of(page, *dispatch, action, begin),
        Record::Load { dispatch, .. } => begin_of(page, *dispatch, action, begin),
        Record::Eload { dispatch, .. } => begin_of(page, *dispatch, action, begin),
        Record::Fire { dispatch, .. } => begin_of(page, *dispatch, action, begin),
        Record::Inline { dispatch, .. } => begin_of(page, *dispatch, action, begin),
        Record::Wfire { dispatch, .. } => begin_of(page, *dispatch, action, begin),
        Record::Reply { dispatch, .. } => begin_of(page, *dispatch, action, begin),
        _ => What::Unnamed,
    }
}

/// A handler of the dispatch of this number.
fn handler_of<'a>(page: &'a Page, dispatch: u32, group: u32, handler: u32) -> What<'a>
    requires some { ∥ IsSomePage page.now ∥₁ }
    ensures { (h : List Record) → IsPage page.now h
        → what_shown h result
        ≡ handler_what group handler (maker_of_handler h handler) (dispatch_read h dispatch) }
{
    let maker = page.maker_of_handler(handler);
    match dispatch_at(page, dispatch) {
        Some(dispatch) => What::HandlerOf {
            dispatch,
            group,
            handler,
            maker,
        },
        None => What::Unnamed,
    }
}

/// The close of the dispatch of this number.
fn close_of<'a>(page: &'a Page, dispatch: u32) -> What<'a>
    requires some { ∥ IsSomePage page.now ∥₁ }
    ensures { (h : List Record) → IsPage page.now h
        → what_shown h result ≡ close_what (dispatch_read h dispatch) }
{
    match dispatch_at(page, dispatch) {
        Some(dispatch) => What::CloseOf { dispatch },
        None => What::Unnamed,
    }
}

/// The begin of the dispatch that this record began as this action.
fn begin_of<'a>(page: &'a Page, dispatch: u32, action: u32, begin: &'a Record) -> What<'a>
    ensures { (h : List Record) → IsPage page.now h
        → what_shown h result ≡ begun_what (dispatch_by h dispatch action begin.now) }
{
    match dispatch_by(page, dispatch, action, begin) {
        Some(dispatch) => What::BeginOf { dispatch },
        None => What::Unnamed,
    }
}

/// The dispatch of this number.
fn dispatch_at<'a>(page: &'a Page, number: u32) -> Option<Dispatch<'a>>
    requires some { ∥ IsSomePage page.now ∥₁ }
    ensures { (h : List Record) → IsPage page.now h
        → option_map dispatched result ≡ dispatch_read h number }
{
    let begin = page.begin_event(number)?;
    let rec = page.begin_of(begin);
    dispatch_by(page, number, begin, rec)
}

/// The dispatch of this number that the record began as this action.
fn dispatch_by<'a>(page: &'a Page, number: u32, begin: u32, rec: &'a Record) -> Option<Dispatch<'a>>
    ensures { (h : List Record) → IsPage page.now h
        → option_map dispatched result ≡ dispatch_by h number begin rec.now }
{
    let delivers = delivery_of(page, rec)?;
    Some(Dispatch {
        number,
        begin,
        delivers,
    })
}

/// What the record delivers where it begins a dispatch.
fn delivery_of<'a>(page: &'a Page, rec: &'a Record) -> Option<Delivery<'a>>
    ensures { (h : List Record) → IsPage page.now h
        → option_map delivered result ≡ delivery_read h rec.now }
{
    match rec {
        Record::Dcl { doc, .. } => Some(Delivery::DclOf {
            doc: *doc,
            maker: page.maker_of_document(*doc),
        }),
        Record::Load { doc, .. } => Some(Delivery::LoadOf {
            doc: *doc,
            maker: page.maker_of_document(*doc),
        }),
        Record::Eload { element, .. } => Some(Delivery::EloadOf {
            element: *element,
            made: page.element(*element),
        }),
        Record::Fire { element, name, .. } => Some(Delivery::FireAt {
            element: *element,
            name,
            maker: page.maker_of_element(*element),
        }),
        Record::Inline { element, name, .. } => Some(Delivery::InlineAt {
            element: *element,
            name,
            maker: page.maker_of_element(*element),
        }),
        Record::Wfire { doc, name, .. } => Some(Delivery::WindowFire {
            doc: *doc,
            name,
            maker: page.maker_of_document(*doc),
        }),
        Record::Reply { request, .. } => Some(Delivery::ReplyOf {
            request: *request,
            maker: page.maker_of_request(*request),
        }),
        _ => None,
    }
}
