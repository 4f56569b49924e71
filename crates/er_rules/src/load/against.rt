//! Whether a record comes too late: a rule leads from its event back to one that has begun.

ghost use Rattle.std.specs.Prelude.{◌≡◌, ℕ, List, None};
ghost use Rattle.er_trace.specs.declared.record.Record.{Record};
ghost use Rattle.er_history.specs.History.{told};
ghost use Rattle.er_history.specs.Rules.{Rule, is_some_and, load_rules};
ghost use Rattle.er_history.specs.Edges.{path};
ghost use Rattle.er_history.specs.LookUps.{element_made};
ghost use Rattle.er_history.specs.Naming.{naming};
ghost use Rattle.er_history.specs.Handed.{HasFamily};
ghost use Rattle.er_history.specs.Sound.{IsSound, leads_back};
ghost use Rattle.er_page.specs.Page.{IsPage};
ghost use Rattle.er_rules.specs.load.Against as says;

use er_page::page::Page;
use er_trace::record::{Kind, Record};

/// Whether a rule from 8 to 13 leads from the event that the record would begin to one that has
/// begun. It takes no memory.
///
/// Rules 11 and 13 never do: they go by the order of the records. Nor does rule 12 from the event
/// that made an element, which has begun.
pub fn against(page: &Page, rec: &Record) -> bool
    ensures { (table : List (ℕ × Rule)) (h : List Record) → IsPage page.now h
        → HasFamily table load_rules → IsSound table h → naming h rec.now ≡ None
        → result ≡ leads_back load_rules (path table h) (told h) rec.now }
{
    is_late(page, rec)
}

/// Whether the record comes too late: a parse step, the run of a script or DOMContentLoaded, behind
/// DOMContentLoaded or load of the document or the first load event of the script.
fn is_late(page: &Page, rec: &Record) -> bool
    ensures { (h : List Record) → IsPage page.now h → result ≡ says.is_late h rec.now }
{
    match rec {
        Record::Parse { doc, .. } => is_step_late(page, *doc),
        Record::ParseFrame { doc, .. } => is_step_late(page, *doc),
        Record::Exec { element } => is_run_late(page, *element),
        Record::Dcl { doc, .. } => has_load(page, *doc),
        _ => false,
    }
}

/// Whether DOMContentLoaded of the document has begun: a parse step, and the run of a blocking or
/// deferred script, comes too late then (rule 8).
fn has_dcl(page: &Page, doc: u32) -> bool
    ensures { (h : List Record) → IsPage page.now h → result ≡ says.has_dcl h doc }
{
    page.dcl_of(doc).is_some()
}

/// Whether load of the document has begun: a parse step, the run of a static script (rule 10) and
/// DOMContentLoaded (rule 9) come too late then.
fn has_load(page: &Page, doc: u32) -> bool
    ensures { (h : List Record) → IsPage page.now h → result ≡ says.has_load h doc }
{
    page.load_of(doc).is_some()
}

/// Whether a parse step of the document comes too late.
fn is_step_late(page: &Page, doc: u32) -> bool
    ensures { (h : List Record) → IsPage page.now h → result ≡ says.is_step_late h doc }
{
    has_dcl(page, doc) || has_load(page, doc)
}

/// Whether the run of the script comes too late: in its document, or behind its own load
/// event (rule 12).
fn is_run_late(page: &Page, element: u32) -> bool
    ensures { (h : List Record) → IsPage page.now h
        → result ≡ says.is_run_late h element (element_made h element) }
{
    is_late_in_document(page, element) || page.eload_of(element).is_some()
}

/// Whether it comes too late in its document.
fn is_late_in_document(page: &Page, element: u32) -> bool
    ensures { (h : List Record) → IsPage page.now h
        → result ≡ is_some_and (says.is_script_late h) (element_made h element) }
{
    let Some(doc) = page.document_of(element) else {
        return false;
    };
    runs_before_dcl(page, element) && has_dcl(page, doc)
        || page.is_static(element) && has_load(page, doc)
}

/// Whether it is a blocking or a deferred script: a parse step made it, and it is of the kind
/// `inline`, `sync` or `defer`.
fn runs_before_dcl(page: &Page, element: u32) -> bool
    ensures { (h : List Record) → IsPage page.now h
        → result ≡ is_some_and says.runs_before_dcl (element_made h element) }
{
    page.is_static(element)
        && matches!(
            page.script_kind(element),
            Some(Kind::Inline | Kind::Sync | Kind::Defer)
        )
}
