//! Rules 3 to 7.

ghost use Rattle.std.specs.Prelude.{◌≡◌, ℕ, Bool, ◌&&◌, ◌==◌, nat_lt, List, option_map};
ghost use Rattle.er_trace.specs.declared.record.Record.{Record};
ghost use Rattle.er_history.specs.Rules as rules;
ghost use Rattle.er_claims.specs.Claimed.{element_of};
ghost use Rattle.er_reasons.specs.Shown.{holds, least};
ghost use Rattle.er_reasons.specs.Words.{blocks_deferred, blocks_step, deferred_before};

use crate::elements::{is_blocking, is_deferred, is_maker};
use crate::event::{Event, What};
use crate::numbers::least_from;
use er_claims::claimed::Element;

/// The least number of a rule on scripts that holds from u to v.
pub(crate) fn script_rule(u: &Event<'_>, v: &Event<'_>) -> Option<u32>
    ensures { (joined : ℕ → ℕ → Bool) (h : List Record)
        → result ≡ least rules.script_rules joined h u.now v.now }
{
    least_from(
        3,
        &[
            script_made_before_run(u, v),
            blocking_script_before_later_step(u, v),
            step_before_deferred_script(u, v),
            blocking_before_deferred_script(u, v),
            deferred_scripts_as_parsed(u, v),
        ],
    )
}

fn script_made_before_run(u: &Event<'_>, v: &Event<'_>) -> bool
    ensures { (joined : ℕ → ℕ → Bool) (h : List Record)
        → result ≡ holds rules.script_made_before_run joined h u.now v.now }
{
    match v.what {
        What::ScriptRun { made, .. } => is_maker(made, u),
        _ => false,
    }
}

fn blocking_script_before_later_step(u: &Event<'_>, v: &Event<'_>) -> bool
    ensures { (joined : ℕ → ℕ → Bool) (h : List Record)
        → result ≡ holds rules.blocking_script_before_later_step joined h u.now v.now }
{
    match u.what {
        What::ScriptRun { made, .. } => match v.what {
            What::ParseStep { doc, .. } => blocks(made, doc, v.number),
            _ => false,
        },
        _ => false,
    }
}

fn step_before_deferred_script(u: &Event<'_>, v: &Event<'_>) -> bool
    ensures { (joined : ℕ → ℕ → Bool) (h : List Record)
        → result ≡ holds rules.step_before_deferred_script joined h u.now v.now }
{
    match u.what {
        What::ParseStep { doc, .. } => match v.what {
            What::ScriptRun { made, .. } => is_deferred_in(made, doc),
            _ => false,
        },
        _ => false,
    }
}

fn blocking_before_deferred_script(u: &Event<'_>, v: &Event<'_>) -> bool
    ensures { (joined : ℕ → ℕ → Bool) (h : List Record)
        → result ≡ holds rules.blocking_before_deferred_script joined h u.now v.now }
{
    match u.what {
        What::ScriptRun { made, .. } => match v.what {
            What::ScriptRun { made: later, .. } => is_blocking_before(made, later),
            _ => false,
        },
        _ => false,
    }
}

fn deferred_scripts_as_parsed(u: &Event<'_>, v: &Event<'_>) -> bool
    ensures { (joined : ℕ → ℕ → Bool) (h : List Record)
        → result ≡ holds rules.deferred_scripts_as_parsed joined h u.now v.now }
{
    match u.what {
        What::ScriptRun { made, .. } => match v.what {
            What::ScriptRun { made: later, .. } => is_deferred_before(made, later),
            _ => false,
        },
        _ => false,
    }
}

/// Whether it is a blocking script of the document that was parsed before this step.
fn blocks(made: Option<Element>, doc: u32, step: u32) -> bool
    ensures { result ≡ rules.is_some_and (blocks_step doc step) (option_map element_of made) }
{
    match made {
        Some(x) => is_blocking(&x) & ((x.doc == doc) & (x.piece < step)),
        None => false,
    }
}

/// Whether it is a deferred script of the document.
fn is_deferred_in(made: Option<Element>, doc: u32) -> bool
    ensures { result
        ≡ rules.is_some_and
        (λ x. rules.is_deferred x && (x.doc == doc)) (option_map element_of made) }
{
    match made {
        Some(x) => is_deferred(&x) & (x.doc == doc),
        None => false,
    }
}

/// Whether the one is a blocking script, the other a deferred script of its document.
fn is_blocking_before(made: Option<Element>, later: Option<Element>) -> bool
    ensures { result
        ≡ rules.both_some_and blocks_deferred
        (option_map element_of made) (option_map element_of later) }
{
    let Some(x) = made else {
        return false;
    };
    match later {
        Some(y) => is_blocking(&x) & (is_deferred(&y) & (x.doc == y.doc)),
        None => false,
    }
}

/// Whether both are deferred scripts of one document, the one parsed before the other.
fn is_deferred_before(made: Option<Element>, later: Option<Element>) -> bool
    ensures { result
        ≡ rules.both_some_and deferred_before
        (option_map element_of made) (option_map element_of later) }
{
    let Some(x) = made else {
        return false;
    };
    match later {
        Some(y) => {
            is_deferred(&x) & (is_deferred(&y) & ((x.doc == y.doc) & (x.piece < y.piece)))
        }
        None => false,
    }
}
