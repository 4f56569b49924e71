//! The rules of all families together: whether a record comes too late, and what comes before it. A
//! family is a line in each.

ghost use Rattle.std.specs.Prelude.{◌≡◌, List, ◌∷◌, Bool, false, None, IfOk, OnOk};
ghost use Rattle.std.specs.List.{list_any};
ghost use Rattle.er_trace.specs.declared.record.Record.{Record};
ghost use Rattle.er_history.specs.History.{told};
ghost use Rattle.er_history.specs.Handed.{HasHanded};
ghost use Rattle.er_history.specs.Rules.{rules, task_rules};
ghost use Rattle.er_history.specs.Edges.{path};
ghost use Rattle.er_history.specs.Naming.{naming};
ghost use Rattle.er_history.specs.Sound.{IsSound, out_of_order};
ghost use Rattle.er_pieces.specs.Contract.{ComesNext};
ghost use Rattle.er_pieces.specs.PiecesHanded.{ArePiecesHanded};
ghost use Rattle.er_page.specs.Page.{IsPage, IsSomePage};
ghost use Rattle.er_path_rules.specs.timer.Timed.{IsTimed, IsSomeTimed};
ghost use Rattle.er_trace.specs.declared.version.Version.{Version};
ghost use Rattle.er_graph.specs.Accepted.{AreOf};

use er_clocks::Clocks;
use er_io::NoMemory;
use er_page::page::Page;
use er_path_rules::{task, timer};
use er_rules::{dispatch, load, parse, request, script};
use er_trace::record::Record;
use er_trace::version::Version;
use smallvec::SmallVec;
use std::alloc::Global;

/// Whether a rule leads from the event that the record would begin to one that has begun.
/// It takes no memory.
pub(crate) fn is_late(page: &Page, rec: &Record) -> bool
    ensures { (v : Version) (h : List Record) → IsPage page.now h → IsSound (rules v) h
        → naming h rec.now ≡ None → result ≡ out_of_order (rules v) h rec.now }
{
    let late = [
        parse::against::against(page, rec),
        script::against::against(page, rec),
        load::against::against(page, rec),
        dispatch::against::against(page, rec),
        timer::against::against(page, rec),
        request::against::against(page, rec),
        task::against::against(page, rec),
    ];
    is_any(&late)
}

fn is_any(late: &[bool]) -> bool
    ensures { result ≡ list_any (λ (b : Bool). b) late.now }
{
    late.iter().any(|late| *late)
}

/// Sources of edges to the action that the record would begin: each source has a path to
/// one of them.
pub(crate) fn sources(
    alloc: Global,
    page: &Page,
    clocks: &Clocks,
    version: Version,
    rec: &Record,
) -> Result<SmallVec<u32, 8>, NoMemory>
    requires some { ∥ IsSomePage page.now ∥₁ }
    requires timed { ∥ IsSomeTimed version page.now clocks.now ∥₁ }
    ensures { IfOk result (λ found. (h : List Record) → IsTimed version page.now clocks.now h
        → AreOf version (rec.now ∷ h) → IsSound (rules version) h → naming h rec.now ≡ None
        → out_of_order (rules version) h rec.now ≡ false
        → ArePiecesHanded (rules version) (path (rules version) h) (told h) rec.now found.items) }
{
    let mut found = SmallVec::new(alloc);
    parse::predecessors::predecessors(page, rec, &mut found)?;
    script::predecessors::predecessors(page, rec, &mut found)?;
    load::predecessors::predecessors(page, rec, &mut found)?;
    dispatch::predecessors::predecessors(page, rec, &mut found)?;
    timer::predecessors::predecessors(page, clocks, version, rec, &mut found)?;
    request::predecessors::predecessors(page, rec, &mut found)?;
    task_sources(page, clocks, version, rec, &mut found)?;
    Ok(found)
}

/// Hands the sources by the rules of tasks. A version that has no records of tasks has none.
fn task_sources(
    page: &Page,
    clocks: &Clocks,
    version: Version,
    rec: &Record,
    out: &mut SmallVec<u32, 8>,
) -> Result<(), NoMemory>
    requires timed { ∥ IsSomeTimed version page.now clocks.now ∥₁ }
    ensures { OnOk result ((h : List Record) → IsTimed version page.now clocks.now h
        → AreOf version (rec.now ∷ h) → ComesNext (rules version) h rec.now
        → HasHanded task_rules (path (rules version) h) (told h) rec.now
        out.old.items out.new.items) }
{
    match version {
        Version::One => Ok(()),
        Version::Two => Ok(()),
        Version::Three => task::predecessors::predecessors(page, clocks, rec, out),
    }
}
