//! Tests of elements, and of what made a number.

ghost use Rattle.std.specs.Prelude.{◌≡◌, ℕ, List, ◌==◌, ◌&&◌, nat_lt, option_map};
ghost use Rattle.er_trace.specs.declared.record.Record.{Record};
ghost use Rattle.er_history.specs.Rules as rules;
ghost use Rattle.er_claims.specs.Claimed.{element_of};
ghost use Rattle.er_reasons.specs.Shown.{event_shown};

use crate::event::Event;
use er_claims::claimed::{Element, Form};
use er_trace::record::Kind;

/// Whether u was begun first.
pub(crate) fn recorded(u: &Event<'_>, v: &Event<'_>) -> bool
    ensures { result ≡ nat_lt u.now.number v.now.number }
{
    u.number < v.number
}

/// Whether u is the event that made it.
pub(crate) fn made_by(maker: Option<u32>, u: &Event<'_>) -> bool
    ensures { (h : List Record) → result ≡ rules.made_by maker (event_shown h u.now) }
{
    match maker {
        Some(maker) => maker == u.number,
        None => false,
    }
}

/// Whether u is the event that made the element.
pub(crate) fn is_maker(made: Option<Element>, u: &Event<'_>) -> bool
    ensures { result
        ≡ rules.is_some_and (λ x. x.maker == u.now.number) (option_map element_of made) }
{
    match made {
        Some(made) => made.maker == u.number,
        None => false,
    }
}

/// Whether it is a static script for which the parser waits.
pub(crate) fn is_blocking(element: &Element) -> bool
    ensures { result ≡ rules.is_blocking (element_of element.now) }
{
    if !element.is_static {
        return false;
    }
    match element.form {
        Form::Kinded(Kind::Inline) => true,
        Form::Kinded(Kind::Sync) => true,
        _ => false,
    }
}

/// Whether it is a static script that runs when its document has been parsed.
pub(crate) fn is_deferred(element: &Element) -> bool
    ensures { result ≡ rules.is_deferred (element_of element.now) }
{
    if !element.is_static {
        return false;
    }
    match element.form {
        Form::Kinded(Kind::Defer) => true,
        _ => false,
    }
}

/// Whether it is neither a script nor an image nor a frame.
pub(crate) fn is_plain(element: &Element) -> bool
    ensures { result ≡ rules.is_plain (element_of element.now) }
{
    match element.form {
        Form::Kinded(Kind::Plain) => true,
        _ => false,
    }
}

/// Whether it is a frame, which declared this document.
pub(crate) fn declares(element: &Element, doc: u32) -> bool
    ensures { result ≡ rules.declared (element_of element.now).form doc }
{
    match element.form {
        Form::Framing(inner) => inner == doc,
        Form::Kinded(_) => false,
    }
}
