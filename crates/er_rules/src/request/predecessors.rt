//! The pieces that come before the action that a record would begin.

ghost use Rattle.std.specs.Prelude.{◌≡◌, ℕ, List, length, take, Ok, Err, OnOk, OnErr};
ghost use Rattle.er_trace.specs.declared.record.Record.{Record};
ghost use Rattle.er_history.specs.History.{History};
ghost use Rattle.er_history.specs.Rules.{request_rules};
ghost use Rattle.er_page.specs.Page.{IsPage, IsSomePage};
ghost use Rattle.er_pieces.specs.Contract.{HandsExactly, HandsFront, HandsEnough, HandsSources, HandsFew};
ghost use Rattle.er_pieces.specs.Counts.{most_request};
ghost use Rattle.er_pieces.specs.HandedPieces.{request_handed};
ghost use Rattle.er_rules.specs.request.Replies.{reply_handed};
ghost use Rattle.er_page.specs.Handing.{GrewFor, GrewInPartFor};

use er_io::NoMemory;
use er_page::handing::hand_latest;
use er_page::page::Page;
use er_trace::record::Record;
use smallvec::SmallVec;

/// Hands the latest piece of the event that sent the request of a reply, and that of the close of
/// its latest closed reply. Any other record is handed nothing.
pub fn predecessors(page: &Page, rec: &Record, out: &mut SmallVec<u32, 8>) -> Result<(), NoMemory>
    requires some { ∥ IsSomePage page.now ∥₁ }
    ensures exact { OnOk result
        (HandsExactly (IsPage page.now) request_handed rec.now out.old.items out.new.items) }
    // Memory ran out.
    ensures front { OnErr result
        (HandsFront (IsPage page.now) request_handed rec.now out.old.items out.new.items) }
    ensures enough { OnOk result
        (HandsEnough (IsPage page.now) request_rules rec.now out.old.items out.new.items) }
    ensures sources { OnErr result
        (HandsSources (IsPage page.now) request_rules rec.now out.old.items out.new.items) }
    ensures few { HandsFew (IsPage page.now) most_request rec.now out.old.items out.new.items }
    // What was handed before stays in front.
    ensures kept { take (length out.old.items) out.new.items ≡ out.old.items }
{
    hand(page, rec, out)
}

/// Hands what is due for the record.
fn hand(page: &Page, rec: &Record, out: &mut SmallVec<u32, 8>) -> Result<(), NoMemory>
    requires some { ∥ IsSomePage page.now ∥₁ }
    ensures exact { OnOk result
        (HandsExactly (IsPage page.now) request_handed rec.now out.old.items out.new.items) }
    ensures front { OnErr result
        (HandsFront (IsPage page.now) request_handed rec.now out.old.items out.new.items) }
{
    match rec {
        Record::Reply { request, .. } => hand_for_reply(page, *request, out),
        _ => Ok(()),
    }
}

/// Hands what comes before the begin of a reply.
fn hand_for_reply(page: &Page, request: u32, out: &mut SmallVec<u32, 8>) -> Result<(), NoMemory>
    requires some { ∥ IsSomePage page.now ∥₁ }
    ensures whole { OnOk result
        (GrewFor page.now (λ (t : History). reply_handed t request) out.old.items out.new.items) }
    ensures part { OnErr result (GrewInPartFor page.now
        (λ (t : History). reply_handed t request) out.old.items out.new.items) }
{
    hand_latest(page, page.maker_of_request(request), out)?;
    hand_latest(page, page.last_reply_close(request), out)
}
