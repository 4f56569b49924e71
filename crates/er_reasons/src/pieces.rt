//! Rules 22 and 23, between pieces.

ghost use Rattle.std.specs.Prelude.{◌≡◌, ◌<◌, List};
ghost use Rattle.er_trace.specs.declared.record.Record.{Record};
ghost use Rattle.er_history.specs.History as history;
ghost use Rattle.er_history.specs.Edges.{around_inline};
ghost use Rattle.er_pieces.specs.steps.Steps.{given, rule_of_pieces};
ghost use Rattle.er_reasons.specs.Shown.{what_shown, event_shown};
ghost use Rattle.er_reasons.specs.Words.{piece, closes_inline};

use crate::event::{Delivery, Event, What};
use crate::numbers::lesser;
use er_trace::record::Record;

/// The least number of a rule on pieces that holds from piece i of u to piece j of v, which this
/// record began.
pub(crate) fn piece_rule(
    i: u32,
    u: &Event<'_>,
    j: u32,
    v: &Event<'_>,
    begin: &Record,
) -> Option<u32>
    requires { i < j }
    ensures { (h : List Record) (x : Record)
        → result
        ≡ rule_of_pieces (piece i x (event_shown h u.now))
        (piece j begin.now (event_shown h v.now)) }
{
    lesser(
        given(is_around_inline(i, u, j, begin), 22),
        given(u.number == v.number, 23),
    )
}

fn given(holds: bool, number: u32) -> Option<u32>
    ensures { result ≡ given holds number }
{
    if holds { Some(number) } else { None }
}

/// Whether the piece was suspended by the inline dispatch that the record begins, or is one of its
/// close, and the record its `back`.
fn is_around_inline(i: u32, u: &Event<'_>, j: u32, begin: &Record) -> bool
    requires { i < j }
    ensures { (h : List Record) (x : Record) (e : history.Event)
        → result ≡ around_inline (piece i x (event_shown h u.now)) (piece j begin.now e) }
{
    match begin {
        Record::Inline { .. } => i + 1 == j,
        Record::Back { dispatch } => closes_inline(u.what, *dispatch),
        _ => false,
    }
}

/// Whether it is the close of the inline dispatch of this number.
fn closes_inline(what: What<'_>, number: u32) -> bool
    ensures { (h : List Record) → result ≡ closes_inline number (what_shown h what.entry) }
{
    match what {
        What::CloseOf { dispatch } => match dispatch.delivers {
            Delivery::InlineAt { .. } => dispatch.number == number,
            _ => false,
        },
        _ => false,
    }
}
