//! Rules 14 to 17.

ghost use Rattle.std.specs.Prelude.{◌≡◌, ℕ, Bool, ◌&&◌, ◌==◌, nat_lt, List};
ghost use Rattle.er_trace.specs.declared.record.Record.{Record};
ghost use Rattle.er_history.specs.Rules as rules;
ghost use Rattle.er_reasons.specs.Shown.{delivered, holds, least};
ghost use Rattle.er_reasons.specs.Words.{is_at};

use crate::elements::{made_by, recorded};
use crate::event::{Delivery, Event, What};
use crate::numbers::least_from;
use er_trace::name::Name;

/// The least number of a rule on dispatches that holds from u to v.
pub(crate) fn dispatch_rule(u: &Event<'_>, v: &Event<'_>) -> Option<u32>
    ensures { (joined : ℕ → ℕ → Bool) (h : List Record)
        → result ≡ least rules.dispatch_rules joined h u.now v.now }
{
    least_from(
        14,
        &[
            target_before_dispatch(u, v),
            registered_before_run(u, v),
            dispatch_in_order(u, v),
            dispatches_of_one_type_in_order(u, v),
        ],
    )
}

fn target_before_dispatch(u: &Event<'_>, v: &Event<'_>) -> bool
    ensures { (joined : ℕ → ℕ → Bool) (h : List Record)
        → result ≡ holds rules.target_before_dispatch joined h u.now v.now }
{
    match v.what {
        What::BeginOf { dispatch } => match dispatch.delivers {
            Delivery::FireAt { maker, .. } => made_by(maker, u),
            Delivery::InlineAt { maker, .. } => made_by(maker, u),
            Delivery::WindowFire { maker, .. } => made_by(maker, u),
            Delivery::DclOf { maker, .. } => made_by(maker, u),
            Delivery::LoadOf { maker, .. } => made_by(maker, u),
            _ => false,
        },
        _ => false,
    }
}

fn registered_before_run(u: &Event<'_>, v: &Event<'_>) -> bool
    ensures { (joined : ℕ → ℕ → Bool) (h : List Record)
        → result ≡ holds rules.registered_before_run joined h u.now v.now }
{
    match v.what {
        What::HandlerOf { maker, .. } => made_by(maker, u),
        _ => false,
    }
}

fn dispatch_in_order(u: &Event<'_>, v: &Event<'_>) -> bool
    ensures { (joined : ℕ → ℕ → Bool) (h : List Record)
        → result ≡ holds rules.dispatch_in_order joined h u.now v.now }
{
    match u.what {
        What::BeginOf { dispatch } => match v.what {
            What::HandlerOf {
                dispatch: later,
                ..
            } => dispatch.number == later.number,
            What::CloseOf { dispatch: later } => dispatch.number == later.number,
            _ => false,
        },
        What::HandlerOf {
            dispatch,
            group,
            ..
        } => match v.what {
            What::HandlerOf {
                dispatch: later,
                group: greater,
                ..
            } => (dispatch.number == later.number) & (group < greater),
            What::CloseOf { dispatch: later } => dispatch.number == later.number,
            _ => false,
        },
        _ => false,
    }
}

fn dispatches_of_one_type_in_order(u: &Event<'_>, v: &Event<'_>) -> bool
    ensures { (joined : ℕ → ℕ → Bool) (h : List Record)
        → result ≡ holds rules.dispatches_of_one_type_in_order joined h u.now v.now }
{
    let first = recorded(u, v);
    match u.what {
        What::CloseOf { dispatch } => match v.what {
            What::BeginOf { dispatch: later } => {
                first & has_same_target(dispatch.delivers, later.delivers)
            }
            _ => false,
        },
        _ => false,
    }
}

/// Whether they are dispatches of one type at one element, or at one window.
fn has_same_target(first: Delivery<'_>, later: Delivery<'_>) -> bool
    ensures { result ≡ rules.same_target (delivered first.entry) (delivered later.entry) }
{
    match first {
        Delivery::WindowFire { doc, name, .. } => match later {
            Delivery::WindowFire {
                doc: other,
                name: kind,
                ..
            } => (doc == other) & is_same(name, kind),
            _ => false,
        },
        Delivery::FireAt { element, name, .. } => is_at(element, name, later),
        Delivery::InlineAt { element, name, .. } => is_at(element, name, later),
        _ => false,
    }
}

/// Whether it is a dispatch of this type at the element.
fn is_at(element: u32, name: &Name, later: Delivery<'_>) -> bool
    ensures { result ≡ is_at element name.now (delivered later.entry) }
{
    match later {
        Delivery::FireAt {
            element: other,
            name: kind,
            ..
        } => (element == other) & is_same(name, kind),
        Delivery::InlineAt {
            element: other,
            name: kind,
            ..
        } => (element == other) & is_same(name, kind),
        _ => false,
    }
}

fn is_same(first: &Name, later: &Name) -> bool
    ensures { result ≡ rules.same_bytes first.now later.now }
{
    first == later
}
