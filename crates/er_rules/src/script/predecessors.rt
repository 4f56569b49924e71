//! The latest pieces that must come before the action that a record would begin.

ghost use Rattle.std.specs.Prelude.{◌≡◌, length, take, OnOk, OnErr};
ghost use Rattle.er_history.specs.Rules.{script_rules};
ghost use Rattle.er_page.specs.Page.{IsPage, IsSomePage};
ghost use Rattle.er_pieces.specs.Contract.{HandsExactly, HandsFront, HandsEnough, HandsSources, HandsFew};
ghost use Rattle.er_pieces.specs.Counts.{most_script};
ghost use Rattle.er_pieces.specs.HandedPieces.{script_handed};

use crate::script::due::hand_due;
use er_io::NoMemory;
use er_page::page::Page;
use er_trace::record::Record;
use smallvec::SmallVec;

/// Hands, before a parse step, the latest run of a blocking script of the document; before the run
/// of a script the event that made it, and for a deferred one the latest parse step, blocking run
/// and deferred run of its document too (rules 3 to 7).
///
/// They are sources of edges, and each other source has a path to one of them. Before another
/// record nothing is handed.
pub fn predecessors(page: &Page, rec: &Record, out: &mut SmallVec<u32, 8>) -> Result<(), NoMemory>
    requires some { ∥ IsSomePage page.now ∥₁ }
    ensures exact { OnOk result
        (HandsExactly (IsPage page.now) script_handed rec.now out.old.items out.new.items) }
    ensures enough { OnOk result
        (HandsEnough (IsPage page.now) script_rules rec.now out.old.items out.new.items) }
    // Memory ran out.
    ensures front { OnErr result
        (HandsFront (IsPage page.now) script_handed rec.now out.old.items out.new.items) }
    ensures sources { OnErr result
        (HandsSources (IsPage page.now) script_rules rec.now out.old.items out.new.items) }
    ensures few { HandsFew (IsPage page.now) most_script rec.now out.old.items out.new.items }
    // What was handed before stays in front.
    ensures kept { take (length out.old.items) out.new.items ≡ out.old.items }
{
    hand_due(page, rec, out)
}
