//! What is handed, record by record.

ghost use Rattle.std.specs.Prelude.{◌≡◌, List, OnOk, OnErr};
ghost use Rattle.er_trace.specs.declared.record.Record.{Record};
ghost use Rattle.er_history.specs.History.{History};
ghost use Rattle.er_history.specs.LookUps.{dcl_of, load_of};
ghost use Rattle.er_page.specs.Page.{IsPage, IsSomePage};
ghost use Rattle.er_pieces.specs.HandedPieces.{load_handed};
ghost use Rattle.er_page.specs.Handing.{GrewFor, GrewInPartFor};
ghost use Rattle.er_rules.specs.load.Loads.{window_parts, dcl_part, async_part, static_part, eload_parts, maker_part, run_part, inner_part, close_of, inner_close_of};

use er_io::NoMemory;
use er_page::handing::{hand_each, hand_latest, hand_parsed};
use er_page::page::Page;
use er_trace::record::Record;
use smallvec::SmallVec;

/// Hands what is due before the record: before DOMContentLoaded the latest parse step and runs of
/// the document (rule 8).
pub(crate) fn hand_due(
    page: &Page,
    rec: &Record,
    out: &mut SmallVec<u32, 8>,
) -> Result<(), NoMemory>
    requires some { ∥ IsSomePage page.now ∥₁ }
    ensures whole { OnOk result
        (GrewFor page.now (λ (t : History). load_handed t rec.now) out.old.items out.new.items) }
    ensures part { OnErr result (GrewInPartFor page.now
        (λ (t : History). load_handed t rec.now) out.old.items out.new.items) }
{
    match rec {
        Record::Dcl { doc, .. } => hand_parsed(page, *doc, out),
        Record::Load { doc, .. } => hand_before_load(page, *doc, out),
        Record::Eload { element, .. } => hand_before_eload(page, *element, out),
        _ => Ok(()),
    }
}

/// Hands what is due before load of the document.
fn hand_before_load(page: &Page, doc: u32, out: &mut SmallVec<u32, 8>) -> Result<(), NoMemory>
    requires some { ∥ IsSomePage page.now ∥₁ }
    ensures whole { OnOk result (GrewFor page.now (window_parts doc) out.old.items out.new.items) }
    ensures part { OnErr result
        (GrewInPartFor page.now (window_parts doc) out.old.items out.new.items) }
{
    hand_dcl(page, doc, out)?;
    hand_parsed(page, doc, out)?;
    hand_async(page, doc, out)?;
    hand_static(page, doc, out)
}

/// Hands the close of DOMContentLoaded of the document (rule 9).
fn hand_dcl(page: &Page, doc: u32, out: &mut SmallVec<u32, 8>) -> Result<(), NoMemory>
    requires some { ∥ IsSomePage page.now ∥₁ }
    ensures whole { OnOk result (GrewFor page.now (dcl_part doc) out.old.items out.new.items) }
    ensures part { OnErr result
        (GrewInPartFor page.now (dcl_part doc) out.old.items out.new.items) }
{
    hand_latest(page, dcl_close(page, doc), out)
}

/// Hands the runs of the static async scripts of the document (rule 10).
fn hand_async(page: &Page, doc: u32, out: &mut SmallVec<u32, 8>) -> Result<(), NoMemory>
    requires some { ∥ IsSomePage page.now ∥₁ }
    ensures whole { OnOk result (GrewFor page.now (async_part doc) out.old.items out.new.items) }
    ensures part { OnErr result
        (GrewInPartFor page.now (async_part doc) out.old.items out.new.items) }
{
    hand_each(page, page.async_runs(doc), out)
}

/// Hands the closes of the first load events of the static elements of the document that are not
/// plain (rule 11).
fn hand_static(page: &Page, doc: u32, out: &mut SmallVec<u32, 8>) -> Result<(), NoMemory>
    requires some { ∥ IsSomePage page.now ∥₁ }
    ensures whole { OnOk result (GrewFor page.now (static_part doc) out.old.items out.new.items) }
    ensures part { OnErr result
        (GrewInPartFor page.now (static_part doc) out.old.items out.new.items) }
{
    hand_each(page, page.static_closes(doc), out)
}

/// Hands what is due before the first load event of the element.
fn hand_before_eload(page: &Page, element: u32, out: &mut SmallVec<u32, 8>) -> Result<(), NoMemory>
    requires some { ∥ IsSomePage page.now ∥₁ }
    ensures whole { OnOk result
        (GrewFor page.now (eload_parts element) out.old.items out.new.items) }
    ensures part { OnErr result
        (GrewInPartFor page.now (eload_parts element) out.old.items out.new.items) }
{
    hand_maker(page, element, out)?;
    hand_run(page, element, out)?;
    hand_inner(page, element, out)
}

/// Hands the event that made the element (rule 12).
fn hand_maker(page: &Page, element: u32, out: &mut SmallVec<u32, 8>) -> Result<(), NoMemory>
    requires some { ∥ IsSomePage page.now ∥₁ }
    ensures whole { OnOk result
        (GrewFor page.now (maker_part element) out.old.items out.new.items) }
    ensures part { OnErr result
        (GrewInPartFor page.now (maker_part element) out.old.items out.new.items) }
{
    hand_latest(page, page.maker_of_element(element), out)
}

/// Hands the run of the script element (rule 12).
fn hand_run(page: &Page, element: u32, out: &mut SmallVec<u32, 8>) -> Result<(), NoMemory>
    requires some { ∥ IsSomePage page.now ∥₁ }
    ensures whole { OnOk result (GrewFor page.now (run_part element) out.old.items out.new.items) }
    ensures part { OnErr result
        (GrewInPartFor page.now (run_part element) out.old.items out.new.items) }
{
    hand_latest(page, page.run_of(element), out)
}

/// Hands the close of load of the document in the frame element (rule 13).
fn hand_inner(page: &Page, element: u32, out: &mut SmallVec<u32, 8>) -> Result<(), NoMemory>
    requires some { ∥ IsSomePage page.now ∥₁ }
    ensures whole { OnOk result
        (GrewFor page.now (inner_part element) out.old.items out.new.items) }
    ensures part { OnErr result
        (GrewInPartFor page.now (inner_part element) out.old.items out.new.items) }
{
    hand_latest(page, inner_load_close(page, element), out)
}

/// The close of DOMContentLoaded of the document.
fn dcl_close(page: &Page, doc: u32) -> Option<u32>
    ensures { (h : List Record) → IsPage page.now h → result ≡ close_of h (dcl_of h doc) }
{
    page.close_event(page.dcl_of(doc)?)
}

/// The close of load of the document in a frame element.
fn inner_load_close(page: &Page, element: u32) -> Option<u32>
    ensures { (h : List Record) → IsPage page.now h → result ≡ inner_close_of h element }
{
    let inner = page.inner_of(element)?;
    page.close_event(page.load_of(inner)?)
}
