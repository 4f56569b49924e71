//! Whether a record comes too late: a rule leads from its event back to one that has begun.

ghost use Rattle.std.specs.Prelude.{◌≡◌, ℕ, List, None};
ghost use Rattle.er_trace.specs.declared.record.Record.{Record};
ghost use Rattle.er_history.specs.History.{told};
ghost use Rattle.er_history.specs.Rules.{Rule, dispatch_rules};
ghost use Rattle.er_history.specs.Edges.{path};
ghost use Rattle.er_history.specs.Naming.{IsNamed, naming};
ghost use Rattle.er_history.specs.Sound.{leads_back};
ghost use Rattle.er_page.specs.Page.{IsPage};
ghost use Rattle.er_rules.specs.dispatch.Against as says;

use er_page::page::Page;
use er_trace::record::Record;

/// Whether a rule from 14 to 17 leads from the event that the record would begin to one that has
/// begun. It takes no memory.
///
/// Only rule 16 ever does, from a handler of a smaller group to one of a greater: what made a
/// target or registered a handler has begun, and dispatches are ordered as they are recorded.
pub fn against(page: &Page, rec: &Record) -> bool
    ensures { (table : List (ℕ × Rule)) (h : List Record) → IsPage page.now h
        → IsNamed h → naming h rec.now ≡ None
        → result ≡ leads_back dispatch_rules (path table h) (told h) rec.now }
{
    is_late(page, rec)
}

/// Whether the record runs a handler, and one of a greater group of the dispatch has run.
fn is_late(page: &Page, rec: &Record) -> bool
    ensures { (h : List Record) → IsPage page.now h → result ≡ says.is_late h rec.now }
{
    match rec {
        Record::Run {
            dispatch,
            group,
            ..
        } => is_greater(*group, page.last_group(*dispatch)),
        _ => false,
    }
}

/// Whether there is such a group, and it is greater.
fn is_greater(group: u32, other: Option<u32>) -> bool
    ensures { result ≡ says.is_greater group other }
{
    match other {
        Some(other) => group < other,
        None => false,
    }
}
