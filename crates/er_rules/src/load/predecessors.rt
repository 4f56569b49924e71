//! The latest pieces that must come before the action that a record would begin.

ghost use Rattle.std.specs.Prelude.{◌≡◌, length, take, OnOk, OnErr};
ghost use Rattle.er_history.specs.Rules.{load_rules};
ghost use Rattle.er_page.specs.Page.{IsPage, IsSomePage};
ghost use Rattle.er_pieces.specs.Contract.{HandsExactly, HandsFront, HandsEnough, HandsSources, HandsFew};
ghost use Rattle.er_pieces.specs.Counts.{most_load};
ghost use Rattle.er_pieces.specs.HandedPieces.{load_handed};

use crate::load::due::hand_due;
use er_io::NoMemory;
use er_page::page::Page;
use er_trace::record::Record;
use smallvec::SmallVec;

/// Hands the latest pieces of what comes before DOMContentLoaded, load or a first load
/// event (rules 8 to 13).
///
/// They are sources of edges, and each other source has a path to one of them. Before another
/// record nothing is handed.
pub fn predecessors(page: &Page, rec: &Record, out: &mut SmallVec<u32, 8>) -> Result<(), NoMemory>
    requires some { ∥ IsSomePage page.now ∥₁ }
    ensures exact { OnOk result
        (HandsExactly (IsPage page.now) load_handed rec.now out.old.items out.new.items) }
    ensures enough { OnOk result
        (HandsEnough (IsPage page.now) load_rules rec.now out.old.items out.new.items) }
    // Memory ran out.
    ensures front { OnErr result
        (HandsFront (IsPage page.now) load_handed rec.now out.old.items out.new.items) }
    ensures sources { OnErr result
        (HandsSources (IsPage page.now) load_rules rec.now out.old.items out.new.items) }
    ensures few { HandsFew (IsPage page.now) most_load rec.now out.old.items out.new.items }
    // What was handed before stays in front.
    ensures kept { take (length out.old.items) out.new.items ≡ out.old.items }
{
    hand_due(page, rec, out)
}
