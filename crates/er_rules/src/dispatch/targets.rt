//! What is handed of the target of a dispatch.

ghost use Rattle.std.specs.Prelude.{◌≡◌, List, OnOk, OnErr};
ghost use Rattle.er_trace.specs.declared.record.Record.{Record};
ghost use Rattle.er_history.specs.History.{told};
ghost use Rattle.er_history.specs.Latest.{latest_of};
ghost use Rattle.er_history.specs.LookUps.{maker_of_document};
ghost use Rattle.er_page.specs.Page.{IsPage, IsSomePage};
ghost use Rattle.er_pieces.specs.Contract.{GrewForEach, GrewInPartForEach};
ghost use Rattle.er_rules.specs.dispatch.Due.{at_element, at_window, in_piece};

use er_io::NoMemory;
use er_page::handing::{hand_latest, hand_some};
use er_page::page::Page;
use er_trace::name::Name;
use smallvec::SmallVec;

/// Hands the event that declared the document (rule 14).
pub(crate) fn hand_document(
    page: &Page,
    doc: u32,
    out: &mut SmallVec<u32, 8>,
) -> Result<(), NoMemory>
    requires some { ∥ IsSomePage page.now ∥₁ }
    ensures whole { OnOk result (GrewForEach (IsPage page.now)
        (λ h. latest_of (maker_of_document h doc) (told h).actions) out.old.items out.new.items) }
    ensures part { OnErr result (GrewInPartForEach (IsPage page.now)
        (λ h. latest_of (maker_of_document h doc) (told h).actions) out.old.items out.new.items) }
{
    hand_latest(page, page.maker_of_document(doc), out)
}

/// Hands the event that made the element (rule 14), and the latest close of a dispatch of the type
/// at it (rule 17).
pub(crate) fn hand_at_element(
    page: &Page,
    element: u32,
    name: &Name,
    out: &mut SmallVec<u32, 8>,
) -> Result<(), NoMemory>
    requires some { ∥ IsSomePage page.now ∥₁ }
    ensures whole { OnOk result (GrewForEach (IsPage page.now)
        (λ h. at_element h element name.now) out.old.items out.new.items) }
    ensures part { OnErr result (GrewInPartForEach (IsPage page.now)
        (λ h. at_element h element name.now) out.old.items out.new.items) }
{
    hand_latest(page, page.maker_of_element(element), out)?;
    hand_some(page.last_element_close(element, name), out)
}

/// Hands the event that declared the document (rule 14), and the latest close of a dispatch of the
/// type at its window (rule 17).
pub(crate) fn hand_at_window(
    page: &Page,
    doc: u32,
    name: &Name,
    out: &mut SmallVec<u32, 8>,
) -> Result<(), NoMemory>
    requires some { ∥ IsSomePage page.now ∥₁ }
    ensures whole { OnOk result (GrewForEach (IsPage page.now)
        (λ h. at_window h doc name.now) out.old.items out.new.items) }
    ensures part { OnErr result (GrewInPartForEach (IsPage page.now)
        (λ h. at_window h doc name.now) out.old.items out.new.items) }
{
    hand_document(page, doc, out)?;
    hand_some(page.last_window_close(doc, name), out)
}

/// Hands what comes before the begin of an inline dispatch: what does before any at the element,
/// and the running piece, which it suspends (rule 22).
pub(crate) fn hand_in_piece(
    page: &Page,
    element: u32,
    name: &Name,
    out: &mut SmallVec<u32, 8>,
) -> Result<(), NoMemory>
    requires some { ∥ IsSomePage page.now ∥₁ }
    ensures whole { OnOk result (GrewForEach (IsPage page.now)
        (λ h. in_piece h element name.now) out.old.items out.new.items) }
    ensures part { OnErr result (GrewInPartForEach (IsPage page.now)
        (λ h. in_piece h element name.now) out.old.items out.new.items) }
{
    hand_at_element(page, element, name, out)?;
    hand_some(page.running(), out)
}
