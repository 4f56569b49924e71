//! The pieces that come before the action that a record would begin.

ghost use Rattle.std.specs.Prelude.{◌≡◌, List, length, take, OnOk, OnErr};
ghost use Rattle.er_trace.specs.declared.record.Record.{Record};
ghost use Rattle.er_history.specs.Rules.{dispatch_rules};
ghost use Rattle.er_page.specs.Page.{IsPage, IsSomePage};
ghost use Rattle.er_pieces.specs.Contract.{HandsExactly, HandsFront, HandsFew};
ghost use Rattle.er_pieces.specs.Counts.{most_dispatch};
ghost use Rattle.er_pieces.specs.HandedPieces.{dispatch_handed};
ghost use Rattle.er_pieces.specs.PiecesHanded.{HandsEnoughPieces, HandsSourcePieces};

use crate::dispatch::groups::{hand_for_run, hand_group};
use crate::dispatch::targets::{hand_at_element, hand_at_window, hand_document, hand_in_piece};
use er_io::NoMemory;
use er_page::handing::hand_some;
use er_page::page::Page;
use er_trace::record::Record;
use smallvec::SmallVec;

/// Hands the pieces that come before a piece of a dispatch, or before the one that `back` begins.
/// Any other record is handed nothing.
///
/// What is handed is enough for edges between events by rules 14 to 17 and for those between pieces
/// by rules 22 and 23.
pub fn predecessors(page: &Page, rec: &Record, out: &mut SmallVec<u32, 8>) -> Result<(), NoMemory>
    requires some { ∥ IsSomePage page.now ∥₁ }
    ensures exact { OnOk result
        (HandsExactly (IsPage page.now) dispatch_handed rec.now out.old.items out.new.items) }
    // Memory ran out.
    ensures front { OnErr result
        (HandsFront (IsPage page.now) dispatch_handed rec.now out.old.items out.new.items) }
    ensures enough { OnOk result
        (HandsEnoughPieces (IsPage page.now) dispatch_rules rec.now out.old.items out.new.items) }
    ensures sources { OnErr result
        (HandsSourcePieces (IsPage page.now) dispatch_rules rec.now out.old.items out.new.items) }
    ensures few { HandsFew (IsPage page.now) most_dispatch rec.now out.old.items out.new.items }
    // What was handed before stays in front.
    ensures kept { take (length out.old.items) out.new.items ≡ out.old.items }
{
    hand(page, rec, out)
}

/// Hands what is due for the record.
fn hand(page: &Page, rec: &Record, out: &mut SmallVec<u32, 8>) -> Result<(), NoMemory>
    requires some { ∥ IsSomePage page.now ∥₁ }
    ensures exact { OnOk result
        (HandsExactly (IsPage page.now) dispatch_handed rec.now out.old.items out.new.items) }
    ensures front { OnErr result
        (HandsFront (IsPage page.now) dispatch_handed rec.now out.old.items out.new.items) }
{
    match rec {
        Record::Fire { element, name, .. } => hand_at_element(page, *element, name, out),
        Record::Inline { element, name, .. } => hand_in_piece(page, *element, name, out),
        Record::Wfire { doc, name, .. } => hand_at_window(page, *doc, name, out),
        Record::Dcl { doc, .. } => hand_document(page, *doc, out),
        Record::Load { doc, .. } => hand_document(page, *doc, out),
        Record::Run {
            dispatch,
            group,
            handler,
        } => hand_for_run(page, *dispatch, *group, *handler, out),
        Record::Close { dispatch } => {
            hand_group(page, *dispatch, page.last_group(*dispatch), out)
        }
        // It is the latest piece of the close: the law `BackEndsClose` (er_pieces `stack`).
        Record::Back { .. } => hand_some(page.running(), out),
        _ => Ok(()),
    }
}
