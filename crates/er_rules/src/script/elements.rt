//! What the rules ask of script elements.

ghost use Rattle.std.specs.Prelude.{◌≡◌, List};
ghost use Rattle.er_trace.specs.declared.record.Record.{Record};
ghost use Rattle.er_history.specs.LookUps.{element_made};
ghost use Rattle.er_page.specs.Page.{IsPage};
ghost use Rattle.er_rules.specs.script.Scripts as says;

use er_page::page::Page;
use er_trace::record::Kind;

/// Whether it is a blocking script: a parse step made it, and it is of the kind `inline` or `sync`.
pub(crate) fn is_blocking(page: &Page, element: u32) -> bool
    ensures { (h : List Record) → IsPage page.now h
        → result ≡ says.blocks (element_made h element) }
{
    page.is_static(element) && matches!(page.script_kind(element), Some(Kind::Inline | Kind::Sync))
}

/// Whether it is a deferred script: a parse step made it, and it is of the kind `defer`.
pub(crate) fn is_deferred(page: &Page, element: u32) -> bool
    ensures { (h : List Record) → IsPage page.now h
        → result ≡ says.defers (element_made h element) }
{
    page.is_static(element) && matches!(page.script_kind(element), Some(Kind::Defer))
}

/// Whether parse steps made both elements, the first one before the second.
pub(crate) fn is_parsed_before(page: &Page, first: u32, second: u32) -> bool
    ensures { (h : List Record) → IsPage page.now h
        → result ≡ says.is_parsed_before (element_made h first) (element_made h second) }
{
    match (page.parse_action(first), page.parse_action(second)) {
        (Some(step), Some(later)) => step < later,
        _ => false,
    }
}
