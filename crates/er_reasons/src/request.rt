//! Rule 21.

ghost use Rattle.std.specs.Prelude.{◌≡◌, ℕ, Bool, List};
ghost use Rattle.er_trace.specs.declared.record.Record.{Record};
ghost use Rattle.er_history.specs.Rules as rules;
ghost use Rattle.er_reasons.specs.Shown.{holds, least, what_shown};
ghost use Rattle.er_reasons.specs.Words.{closes_reply};

use crate::elements::{made_by, recorded};
use crate::event::{Delivery, Event, What};
use crate::numbers::least_from;

/// The number of the rule on requests, where it holds from u to v.
pub(crate) fn request_rule(u: &Event<'_>, v: &Event<'_>) -> Option<u32>
    ensures { (joined : ℕ → ℕ → Bool) (h : List Record)
        → result ≡ least rules.request_rules joined h u.now v.now }
{
    least_from(21, &[replies_in_order(u, v)])
}

fn replies_in_order(u: &Event<'_>, v: &Event<'_>) -> bool
    ensures { (joined : ℕ → ℕ → Bool) (h : List Record)
        → result ≡ holds rules.replies_in_order joined h u.now v.now }
{
    match v.what {
        What::BeginOf { dispatch } => match dispatch.delivers {
            Delivery::ReplyOf { request, maker } => {
                made_by(maker, u) | (recorded(u, v) & closes_reply(request, u.what))
            }
            _ => false,
        },
        _ => false,
    }
}

/// Whether it is the close of a reply of this request.
fn closes_reply(request: u32, what: What<'_>) -> bool
    ensures { (h : List Record) → result ≡ closes_reply request (what_shown h what.entry) }
{
    match what {
        What::CloseOf { dispatch } => match dispatch.delivers {
            Delivery::ReplyOf {
                request: replied,
                ..
            } => replied == request,
            _ => false,
        },
        _ => false,
    }
}
