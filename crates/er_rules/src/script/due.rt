//! What is handed, record by record.

ghost use Rattle.std.specs.Prelude.{◌≡◌, List, OnOk, OnErr};
ghost use Rattle.er_trace.specs.declared.record.Record.{Record};
ghost use Rattle.er_history.specs.History.{History, first_to, makes_element};
ghost use Rattle.er_history.specs.LookUps.{element_made};
ghost use Rattle.er_history.specs.Kinds.{is_run_of};
ghost use Rattle.er_history.specs.Latest.{newest};
ghost use Rattle.er_history.specs.Rules.{is_blocking};
ghost use Rattle.er_page.specs.Page.{IsPage, IsSomePage};
ghost use Rattle.er_pieces.specs.HandedPieces.{script_handed, run_handed};
ghost use Rattle.er_page.specs.Handing.{GrewFor, GrewInPartFor};
ghost use Rattle.er_rules.specs.script.Scripts.{deferred_document, before_deferred};

use crate::script::elements::is_deferred;
use er_io::NoMemory;
use er_page::handing::{hand_latest, hand_parsed};
use er_page::page::Page;
use er_trace::record::Record;
use smallvec::SmallVec;

/// Hands what is due before the record.
pub(crate) fn hand_due(
    page: &Page,
    rec: &Record,
    out: &mut SmallVec<u32, 8>,
) -> Result<(), NoMemory>
    requires some { ∥ IsSomePage page.now ∥₁ }
    ensures whole { OnOk result
        (GrewFor page.now (λ (t : History). script_handed t rec.now) out.old.items out.new.items) }
    ensures part { OnErr result (GrewInPartFor page.now
        (λ (t : History). script_handed t rec.now) out.old.items out.new.items) }
{
    match rec {
        Record::Parse { doc, .. } => hand_blocking(page, *doc, out),
        Record::ParseFrame { doc, .. } => hand_blocking(page, *doc, out),
        Record::Exec { element } => hand_before_run(page, *element, out),
        _ => Ok(()),
    }
}

/// Hands the latest run of a blocking script of the document.
fn hand_blocking(page: &Page, doc: u32, out: &mut SmallVec<u32, 8>) -> Result<(), NoMemory>
    requires some { ∥ IsSomePage page.now ∥₁ }
    ensures whole { OnOk result (GrewFor page.now
        (λ (t : History). newest (is_run_of is_blocking doc) t.actions)
        out.old.items out.new.items) }
    ensures part { OnErr result (GrewInPartFor page.now
        (λ (t : History). newest (is_run_of is_blocking doc) t.actions)
        out.old.items out.new.items) }
{
    hand_latest(page, page.last_blocking_run(doc), out)
}

/// Hands what is due before the run of the script.
fn hand_before_run(page: &Page, element: u32, out: &mut SmallVec<u32, 8>) -> Result<(), NoMemory>
    requires some { ∥ IsSomePage page.now ∥₁ }
    ensures whole { OnOk result (GrewFor page.now
        (λ (t : History). run_handed t (first_to (makes_element element) t.entries))
        out.old.items out.new.items) }
    ensures part { OnErr result (GrewInPartFor page.now
        (λ (t : History). run_handed t (first_to (makes_element element) t.entries))
        out.old.items out.new.items) }
{
    hand_latest(page, page.maker_of_element(element), out)?;
    hand_before_deferred(page, element, out)
}

/// Hands what is due before the run of a deferred script beside its maker.
fn hand_before_deferred(
    page: &Page,
    element: u32,
    out: &mut SmallVec<u32, 8>,
) -> Result<(), NoMemory>
    requires some { ∥ IsSomePage page.now ∥₁ }
    ensures whole { OnOk result (GrewFor page.now
        (λ (t : History). before_deferred t (first_to (makes_element element) t.entries))
        out.old.items out.new.items) }
    ensures part { OnErr result (GrewInPartFor page.now
        (λ (t : History). before_deferred t (first_to (makes_element element) t.entries))
        out.old.items out.new.items) }
{
    match document_if_deferred(page, element) {
        Some(doc) => hand_parsed(page, doc, out),
        None => Ok(()),
    }
}

/// The document of a deferred script.
fn document_if_deferred(page: &Page, element: u32) -> Option<u32>
    ensures { (h : List Record) → IsPage page.now h
        → result ≡ deferred_document (element_made h element) }
{
    if is_deferred(page, element) {
        page.document_of(element)
    } else {
        None
    }
}
