//! Rules 1 and 2.

ghost use Rattle.std.specs.Prelude.{◌≡◌, ℕ, Bool, List};
ghost use Rattle.er_trace.specs.declared.record.Record.{Record};
ghost use Rattle.er_history.specs.Rules as rules;
ghost use Rattle.er_reasons.specs.Shown.{holds, least};

use crate::elements::{made_by, recorded};
use crate::event::{Event, What};
use crate::numbers::least_from;

/// The least number of a rule on parse steps that holds from u to v.
pub(crate) fn parse_rule(u: &Event<'_>, v: &Event<'_>) -> Option<u32>
    ensures { (joined : ℕ → ℕ → Bool) (h : List Record)
        → result ≡ least rules.parse_rules joined h u.now v.now }
{
    least_from(
        1,
        &[parse_steps_in_order(u, v), document_before_its_steps(u, v)],
    )
}

fn parse_steps_in_order(u: &Event<'_>, v: &Event<'_>) -> bool
    ensures { (joined : ℕ → ℕ → Bool) (h : List Record)
        → result ≡ holds rules.parse_steps_in_order joined h u.now v.now }
{
    let first = recorded(u, v);
    match u.what {
        What::ParseStep { doc, .. } => match v.what {
            What::ParseStep { doc: later, .. } => first & (doc == later),
            _ => false,
        },
        _ => false,
    }
}

fn document_before_its_steps(u: &Event<'_>, v: &Event<'_>) -> bool
    ensures { (joined : ℕ → ℕ → Bool) (h : List Record)
        → result ≡ holds rules.document_before_its_steps joined h u.now v.now }
{
    match v.what {
        What::ParseStep { maker, .. } => made_by(maker, u),
        _ => false,
    }
}
