//! What is handed, record by record.

ghost use Rattle.std.specs.Prelude.{OnOk, OnErr};
ghost use Rattle.er_history.specs.History.{History};
ghost use Rattle.er_page.specs.Page.{IsSomePage};
ghost use Rattle.er_pieces.specs.HandedPieces.{parse_handed, step_handed};
ghost use Rattle.er_page.specs.Handing.{GrewFor, GrewInPartFor};

use er_io::NoMemory;
use er_page::handing::hand_latest;
use er_page::page::Page;
use er_trace::record::Record;
use smallvec::SmallVec;

/// Hands what is due before the record.
pub(crate) fn hand_due(
    page: &Page,
    rec: &Record,
    out: &mut SmallVec<u32, 8>,
) -> Result<(), NoMemory>
    requires some { ∥ IsSomePage page.now ∥₁ }
    ensures whole { OnOk result
        (GrewFor page.now (λ (t : History). parse_handed t rec.now) out.old.items out.new.items) }
    ensures part { OnErr result (GrewInPartFor page.now
        (λ (t : History). parse_handed t rec.now) out.old.items out.new.items) }
{
    match rec {
        Record::Parse { doc, .. } => hand_step(page, *doc, out),
        Record::ParseFrame { doc, .. } => hand_step(page, *doc, out),
        _ => Ok(()),
    }
}

/// Hands the latest parse step of the document, and the latest piece of the event that declared it.
fn hand_step(page: &Page, doc: u32, out: &mut SmallVec<u32, 8>) -> Result<(), NoMemory>
    requires some { ∥ IsSomePage page.now ∥₁ }
    ensures whole { OnOk result
        (GrewFor page.now (λ (t : History). step_handed t doc) out.old.items out.new.items) }
    ensures part { OnErr result
        (GrewInPartFor page.now (λ (t : History). step_handed t doc) out.old.items out.new.items) }
{
    hand_latest(page, page.last_parse(doc), out)?;
    hand_latest(page, page.maker_of_document(doc), out)
}
