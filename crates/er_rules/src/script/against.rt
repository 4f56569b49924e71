//! Whether a record comes too late: a rule leads from its event back to one that has begun.

ghost use Rattle.std.specs.Prelude.{◌≡◌, ℕ, List, None};
ghost use Rattle.er_trace.specs.declared.record.Record.{Record};
ghost use Rattle.er_history.specs.History.{told};
ghost use Rattle.er_history.specs.Rules.{Rule, script_rules};
ghost use Rattle.er_history.specs.Edges.{path};
ghost use Rattle.er_history.specs.Naming.{naming};
ghost use Rattle.er_history.specs.Handed.{HasFamily};
ghost use Rattle.er_history.specs.Sound.{IsSound, leads_back};
ghost use Rattle.er_history.specs.LookUps.{element_made};
ghost use Rattle.er_page.specs.Page.{IsPage};
ghost use Rattle.er_rules.specs.script.Against as says;

use crate::script::elements::{is_blocking, is_deferred, is_parsed_before};
use er_page::page::Page;
use er_trace::record::Record;

/// Whether a rule from 3 to 7 leads from the event that the record would begin to one that has
/// begun. It takes no memory.
///
/// Rule 3 never does: the event that made a script has begun.
pub fn against(page: &Page, rec: &Record) -> bool
    ensures { (table : List (ℕ × Rule)) (h : List Record) → IsPage page.now h
        → HasFamily table script_rules → IsSound table h → naming h rec.now ≡ None
        → result ≡ leads_back script_rules (path table h) (told h) rec.now }
{
    is_late(page, rec)
}

/// Whether the record comes too late: a parse step or the run of a script, after a deferred script
/// of the document, a later parse step, or a deferred script that was parsed later.
fn is_late(page: &Page, rec: &Record) -> bool
    ensures { (h : List Record) → IsPage page.now h → result ≡ says.is_late h rec.now }
{
    match rec {
        Record::Parse { doc, .. } => has_deferred_run(page, *doc),
        Record::ParseFrame { doc, .. } => has_deferred_run(page, *doc),
        Record::Exec { element } => is_run_late(page, *element),
        _ => false,
    }
}

/// Whether a deferred script of the document has run: a parse step (rule 5) or a blocking script
/// (rule 6) comes too late then.
fn has_deferred_run(page: &Page, doc: u32) -> bool
    ensures { (h : List Record) → IsPage page.now h → result ≡ says.has_deferred_run h doc }
{
    page.last_deferred_run(doc).is_some()
}

/// Whether the run of the script comes too late.
fn is_run_late(page: &Page, element: u32) -> bool
    ensures { (h : List Record) → IsPage page.now h
        → result ≡ says.is_run_late h (element_made h element) }
{
    let Some(doc) = page.document_of(element) else {
        return false;
    };
    is_blocking_late(page, element, doc) || is_deferred_late(page, element, doc)
}

/// Whether it is a blocking script, and its run comes too late in the document: behind a later
/// parse step (rule 4) or the run of a deferred script (rule 6).
fn is_blocking_late(page: &Page, element: u32, doc: u32) -> bool
    ensures { (h : List Record) → IsPage page.now h
        → result ≡ says.is_blocking_late h doc (element_made h element) }
{
    is_blocking(page, element)
        && (is_parsed_past(page, element, doc) || has_deferred_run(page, doc))
}

/// Whether it is a deferred script, and its run comes too late in the document: behind that of one
/// which was parsed after it (rule 7).
fn is_deferred_late(page: &Page, element: u32, doc: u32) -> bool
    ensures { (h : List Record) → IsPage page.now h
        → result ≡ says.is_deferred_late h doc (element_made h element) }
{
    is_deferred(page, element) && is_passed(page, element, doc)
}

/// Whether the document was parsed on behind the parse step that made the script.
fn is_parsed_past(page: &Page, element: u32, doc: u32) -> bool
    ensures { (h : List Record) → IsPage page.now h
        → result ≡ says.is_parsed_past h doc (element_made h element) }
{
    match (page.parse_action(element), page.last_parse(doc)) {
        (Some(step), Some(last)) => step < last,
        _ => false,
    }
}

/// Whether a deferred script of the document has run that was parsed after this deferred one.
///
/// They ran as they were parsed, so the last one that ran was parsed last.
fn is_passed(page: &Page, element: u32, doc: u32) -> bool
    ensures { (h : List Record) → IsPage page.now h
        → result ≡ says.is_passed h doc (element_made h element) }
{
    match page.last_deferred_element(doc) {
        Some(last) => is_parsed_before(page, element, last),
        None => false,
    }
}
