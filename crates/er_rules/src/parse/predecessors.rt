//! The latest pieces that must come before the action that a record would begin.

ghost use Rattle.std.specs.Prelude.{◌≡◌, length, take, OnOk, OnErr};
ghost use Rattle.er_history.specs.Rules.{parse_rules};
ghost use Rattle.er_page.specs.Page.{IsPage, IsSomePage};
ghost use Rattle.er_pieces.specs.Contract.{HandsExactly, HandsFront, HandsEnough, HandsSources, HandsFew};
ghost use Rattle.er_pieces.specs.Counts.{most_parse};
ghost use Rattle.er_pieces.specs.HandedPieces.{parse_handed};

use crate::parse::due::hand_due;
use er_io::NoMemory;
use er_page::page::Page;
use er_trace::record::Record;
use smallvec::SmallVec;

/// Hands, before a parse step, the latest one of the document and the latest piece of the event
/// that declared it (rules 1 and 2).
///
/// They are sources of edges, and each other source has a path to one of them. Before another
/// record nothing is handed.
pub fn predecessors(page: &Page, rec: &Record, out: &mut SmallVec<u32, 8>) -> Result<(), NoMemory>
    requires some { ∥ IsSomePage page.now ∥₁ }
    ensures exact { OnOk result
        (HandsExactly (IsPage page.now) parse_handed rec.now out.old.items out.new.items) }
    ensures enough { OnOk result
        (HandsEnough (IsPage page.now) parse_rules rec.now out.old.items out.new.items) }
    // Memory ran out.
    ensures front { OnErr result
        (HandsFront (IsPage page.now) parse_handed rec.now out.old.items out.new.items) }
    ensures sources { OnErr result
        (HandsSources (IsPage page.now) parse_rules rec.now out.old.items out.new.items) }
    ensures few { HandsFew (IsPage page.now) most_parse rec.now out.old.items out.new.items }
    // What was handed before stays in front.
    ensures kept { take (length out.old.items) out.new.items ≡ out.old.items }
{
    hand_due(page, rec, out)
}
