//! Rules 8 to 13.

ghost use Rattle.std.specs.Prelude.{◌≡◌, ℕ, Bool, ◌&&◌, ◌||◌, ◌==◌, not, List, option_map};
ghost use Rattle.er_trace.specs.declared.record.Record.{Record};
ghost use Rattle.er_history.specs.Rules as rules;
ghost use Rattle.er_claims.specs.Claimed.{element_of};
ghost use Rattle.er_reasons.specs.Shown.{delivered, holds, least, what_shown};
ghost use Rattle.er_reasons.specs.Words.{is_inner_load_before, is_static_load_before, runs_element};

use crate::elements::{declares, is_blocking, is_deferred, is_maker, is_plain, recorded};
use crate::event::{Delivery, Event, What};
use crate::numbers::least_from;
use er_claims::claimed::Element;

/// The least number of a rule on loads that holds from u to v.
pub(crate) fn load_rule(u: &Event<'_>, v: &Event<'_>) -> Option<u32>
    ensures { (joined : ℕ → ℕ → Bool) (h : List Record)
        → result ≡ least rules.load_rules joined h u.now v.now }
{
    least_from(
        8,
        &[
            parsed_before_dcl(u, v),
            dcl_before_load(u, v),
            parsed_before_load(u, v),
            static_loads_before_load(u, v),
            element_before_its_load(u, v),
            inner_load_before_frame_load(u, v),
        ],
    )
}

fn parsed_before_dcl(u: &Event<'_>, v: &Event<'_>) -> bool
    ensures { (joined : ℕ → ℕ → Bool) (h : List Record)
        → result ≡ holds rules.parsed_before_dcl joined h u.now v.now }
{
    match v.what {
        What::BeginOf { dispatch } => match dispatch.delivers {
            Delivery::DclOf { doc, .. } => is_parsed_before_dcl(u.what, doc),
            _ => false,
        },
        _ => false,
    }
}

fn dcl_before_load(u: &Event<'_>, v: &Event<'_>) -> bool
    ensures { (joined : ℕ → ℕ → Bool) (h : List Record)
        → result ≡ holds rules.dcl_before_load joined h u.now v.now }
{
    match v.what {
        What::BeginOf { dispatch } => match dispatch.delivers {
            Delivery::LoadOf { doc, .. } => match u.what {
                What::BeginOf { dispatch } => is_dcl_of(doc, dispatch.delivers),
                What::HandlerOf { dispatch, .. } => is_dcl_of(doc, dispatch.delivers),
                What::CloseOf { dispatch } => is_dcl_of(doc, dispatch.delivers),
                _ => false,
            },
            _ => false,
        },
        _ => false,
    }
}

fn parsed_before_load(u: &Event<'_>, v: &Event<'_>) -> bool
    ensures { (joined : ℕ → ℕ → Bool) (h : List Record)
        → result ≡ holds rules.parsed_before_load joined h u.now v.now }
{
    match v.what {
        What::BeginOf { dispatch } => match dispatch.delivers {
            Delivery::LoadOf { doc, .. } => is_parsed_before_load(u.what, doc),
            _ => false,
        },
        _ => false,
    }
}

fn static_loads_before_load(u: &Event<'_>, v: &Event<'_>) -> bool
    ensures { (joined : ℕ → ℕ → Bool) (h : List Record)
        → result ≡ holds rules.static_loads_before_load joined h u.now v.now }
{
    let first = recorded(u, v);
    match u.what {
        What::CloseOf { dispatch } => match v.what {
            What::BeginOf { dispatch: later } => {
                first & is_static_load_before(dispatch.delivers, later.delivers)
            }
            _ => false,
        },
        _ => false,
    }
}

fn element_before_its_load(u: &Event<'_>, v: &Event<'_>) -> bool
    ensures { (joined : ℕ → ℕ → Bool) (h : List Record)
        → result ≡ holds rules.element_before_its_load joined h u.now v.now }
{
    match v.what {
        What::BeginOf { dispatch } => match dispatch.delivers {
            Delivery::EloadOf { element, made } => is_maker(made, u) | runs(element, u.what),
            _ => false,
        },
        _ => false,
    }
}

fn inner_load_before_frame_load(u: &Event<'_>, v: &Event<'_>) -> bool
    ensures { (joined : ℕ → ℕ → Bool) (h : List Record)
        → result ≡ holds rules.inner_load_before_frame_load joined h u.now v.now }
{
    let first = recorded(u, v);
    match u.what {
        What::CloseOf { dispatch } => match v.what {
            What::BeginOf { dispatch: later } => {
                first & is_inner_load_before(dispatch.delivers, later.delivers)
            }
            _ => false,
        },
        _ => false,
    }
}

/// Whether it is a parse step of the document, or the run of a blocking or deferred script of it.
fn is_parsed_before_dcl(what: What<'_>, doc: u32) -> bool
    ensures { (h : List Record)
        → result
        ≡ rules.step_or_script (λ e. rules.is_blocking e || rules.is_deferred e) doc
        (what_shown h what.entry) }
{
    match what {
        What::ParseStep { doc: parsed, .. } => parsed == doc,
        What::ScriptRun { made: Some(x), .. } => {
            (is_blocking(&x) | is_deferred(&x)) & (x.doc == doc)
        }
        _ => false,
    }
}

/// Whether it is a parse step of the document, or the run of a static script of it.
fn is_parsed_before_load(what: What<'_>, doc: u32) -> bool
    ensures { (h : List Record)
        → result ≡ rules.step_or_script (λ e. e.is_static) doc (what_shown h what.entry) }
{
    match what {
        What::ParseStep { doc: parsed, .. } => parsed == doc,
        What::ScriptRun { made: Some(x), .. } => x.is_static & (x.doc == doc),
        _ => false,
    }
}

fn is_dcl_of(doc: u32, delivers: Delivery<'_>) -> bool
    ensures { result ≡ rules.is_dcl_of doc (delivered delivers.entry) }
{
    match delivers {
        Delivery::DclOf { doc: loaded, .. } => loaded == doc,
        _ => false,
    }
}

/// Whether it is the run of this script.
fn runs(element: u32, what: What<'_>) -> bool
    ensures { (h : List Record) → result ≡ runs_element element (what_shown h what.entry) }
{
    match what {
        What::ScriptRun { element: run, .. } => run == element,
        _ => false,
    }
}

/// Whether the one is a first load event of a static element that is not plain, the other load of
/// its document.
fn is_static_load_before(first: Delivery<'_>, later: Delivery<'_>) -> bool
    ensures { result ≡ is_static_load_before (delivered first.entry) (delivered later.entry) }
{
    match first {
        Delivery::EloadOf { made: Some(x), .. } => match later {
            Delivery::LoadOf { doc, .. } => x.is_static & (!is_plain(&x) & (x.doc == doc)),
            _ => false,
        },
        _ => false,
    }
}

/// Whether the one is load of a document, the other the first load event of the frame
/// that declared it.
fn is_inner_load_before(first: Delivery<'_>, later: Delivery<'_>) -> bool
    ensures { result ≡ is_inner_load_before (delivered first.entry) (delivered later.entry) }
{
    match first {
        Delivery::LoadOf { doc, .. } => match later {
            Delivery::EloadOf { made: Some(x), .. } => declares(&x, doc),
            _ => false,
        },
        _ => false,
    }
}
