//! Why a path leads from one action to another.

ghost use Rattle.std.specs.Prelude.{◌≡◌, ◌+◌, ◌<◌, ◌≤◌, ◌∷◌, ◌++◌, [], List, ℕ, true, Some, None, reverse, length, option_map, IfOk, OnOk};
ghost use Rattle.er_trace.specs.declared.record.Record.{Record};
ghost use Rattle.er_history.specs.History.{told};
ghost use Rattle.er_history.specs.Rules.{rules};
ghost use Rattle.er_history.specs.Edges.{edges, path};
ghost use Rattle.er_page.specs.Page as pages;
ghost use Rattle.er_graph.specs.Accepted.{Accepted, records};
ghost use Rattle.er_graph.specs.Graph.{HasBegun, HasFailed, IsGraph};
ghost use Rattle.er_path_rules.specs.timer.Timed.{IsTimed};
ghost use Rattle.er_pieces.specs.steps.Steps as spec;
ghost use Rattle.er_explain.specs.Steps.{AreSome, all_shown};

use crate::source::source_of;
use crate::steps::{Step, Steps};
use er_clocks::Clocks;
use er_graph::Graph;
use er_io::NoMemory;
use er_page::page::Page;
use er_reasons::reason;
use er_trace::version::Version;
use std::alloc::Global;

/// The steps that lead from one action to another by the rules of the graph's version, or none
/// where no path does.
///
/// It goes back from the last action, link by link. Each action is passed once at most, at a
/// comparison for each link into it.
pub fn explain(alloc: Global, graph: &Graph, from: u32, to: u32) -> Result<Option<Steps>, NoMemory>
    requires first { ∥ HasBegun graph.now from ∥₁ }
    requires second { ∥ HasBegun graph.now to ∥₁ }
    requires whole { HasFailed graph.now → ⊥ }
    ensures { IfOk result (λ found. (accepted : List Accepted) → IsGraph graph.now accepted
        → found ≡ spec.explanation (rules graph.now.version) (records accepted) from to) }
{
    let clocks = graph.clocks();
    if !clocks.joined(from, to) {
        return Ok(None);
    }
    let mut steps = Vec::new(alloc);
    go_back(graph.page(), clocks, graph.version(), from, to, &mut steps)?;
    steps.reverse();
    Ok(Some(Steps { steps }))
}

/// Notes the steps that lead from one action to another, the last first.
fn go_back(
    page: &Page,
    clocks: &Clocks,
    version: Version,
    from: u32,
    to: u32,
    found: &mut Vec<Step>,
) -> Result<(), NoMemory>
    requires last { to < length clocks.now }
    requires some { ∥ AreSome clocks.now ∥₁ }
    requires begun { ∥ pages.HasBegun page.now to ∥₁ }
    requires none { found.old.items ≡ [] }
    ensures steps { OnOk result ((h : List Record) → IsTimed version page.now clocks.now h
        → path (rules version) h from to ≡ true
        → reverse (all_shown found.new.items)
        ≡ spec.steps (spec.rule_of (rules version) h) (edges (rules version) (told h).actions)
        from to) }
    ensures few { OnOk result (length found.new.items ≤ to) }
{
    let mut at = to;
    while at != from {
        let Some(source) = source_of(clocks, from, at) else {
            return Ok(());
        };
        note(page, clocks, version, source, at, found)?;
        at = source;
    }
    Ok(())
}

/// Notes the step from one action to another.
fn note(
    page: &Page,
    clocks: &Clocks,
    version: Version,
    source: u32,
    at: u32,
    found: &mut Vec<Step>,
) -> Result<(), NoMemory>
    requires earlier { source < at }
    requires begun { ∥ pages.HasBegun page.now at ∥₁ }
    ensures noted { OnOk result ((h : List Record) → IsTimed version page.now clocks.now h
        → all_shown found.new.items
        ≡ all_shown found.old.items ++ record {
          source = source;
          target = at;
          rule = spec.number_of (spec.rule_of (rules version) h source at);
        } ∷ []) }
    ensures one { OnOk result (length found.new.items ≡ length found.old.items + 1) }
{
    let rule = number_of(reason(page, clocks, version, source, at));
    let step = Step {
        from: source,
        to: at,
        rule,
    };
    let Ok(()) = found.push(step) else {
        return Err(NoMemory);
    };
    Ok(())
}

/// Every link has a rule.
fn number_of(rule: Option<u32>) -> u32
    ensures { result ≡ spec.number_of rule }
{
    match rule {
        Some(number) => number,
        None => 0,
    }
}
