//! Which tasks that have begun come before another, and what is handed of them.

ghost use Rattle.std.specs.Prelude.{◌≡◌, ◌<◌, ◌≤◌, List, length, map, IfOk, OnOk, OnErr};
ghost use Rattle.er_trace.specs.declared.record.Record.{Record};
ghost use Rattle.er_trace.specs.declared.version.Version.TheVariants.{Three};
ghost use Rattle.er_history.specs.History.{told};
ghost use Rattle.er_history.specs.Rules.{rules};
ghost use Rattle.er_history.specs.Edges.{path};
ghost use Rattle.er_paths.specs.Paths.{joins};
ghost use Rattle.er_clocks.specs.Clock.{Tells};
ghost use Rattle.er_tasks.specs.Begun.{AreRuns};
ghost use Rattle.er_page.specs.Handing.{HasEvents};
ghost use Rattle.er_path_rules.specs.timer.Timed.{IsTimed};
ghost use Rattle.er_path_rules.specs.task.Before as says;
ghost use Rattle.er_path_rules.specs.task.Before.{AreJoined, HandsOf, HandsSomeOf, WalksOn, event_in};

use er_clocks::Clocks;
use er_io::NoMemory;
use er_page::handing::hand;
use er_page::page::Page;
use er_tasks::tasks::{BegunTask, Task};
use smallvec::SmallVec;

/// What is asked of a task that has begun.
#[derive(Clone, Copy)]
pub(crate) enum Asked {
    /// That it was declared before this task, in a piece from which a path leads to the
    /// piece of this one.
    Before(Task),
    Nothing,
}

/// How far a walk over tasks has come, from the last to the first: how many are left, and which was
/// handed last.
#[derive(Clone, Copy)]
pub(crate) struct Walk {
    left: usize,
    handed: Option<Task>,
}

/// Whether the first was declared before the second, in a piece from which a path leads
/// to that of the second.
fn goes_before(clocks: &Clocks, first: Task, second: Task) -> bool
    ensures { Tells clocks.now (λ lists. result ≡ says.goes_before (joins lists) first second) }
{
    if first.rank >= second.rank {
        return false;
    }
    clocks.joined(first.piece, second.piece)
}

/// Whether the task is as asked.
fn passes(clocks: &Clocks, asked: Asked, task: Task) -> bool
    ensures { Tells clocks.now (λ lists. result ≡ says.passes (joins lists) asked task) }
{
    match asked {
        Asked::Before(next) => goes_before(clocks, task, next),
        Asked::Nothing => true,
    }
}

/// Whether the task goes before the one that was handed last.
fn is_covered(clocks: &Clocks, task: Task, handed: Option<Task>) -> bool
    ensures { Tells clocks.now (λ lists. result ≡ says.is_covered (joins lists) task handed) }
{
    match handed {
        Some(handed) => goes_before(clocks, task, handed),
        None => false,
    }
}

/// Goes on by the last task that is left: hands its latest piece, if it is as asked and goes not
/// before the one that was handed last.
///
/// The tasks of its run go before it. So they need not be asked where it was handed, or goes before
/// one that was.
fn walk_on(
    page: &Page,
    clocks: &Clocks,
    asked: Asked,
    begun: &[BegunTask],
    walk: Walk,
    out: &mut SmallVec<u32, 8>,
) -> Result<Walk, NoMemory>
    requires some { 0 < walk.left }
    requires within { walk.left ≤ length begun.now }
    requires events { ∥ HasEvents page.now (map event_in begun.now) ∥₁ }
    requires runs { AreRuns begun.now }
    requires joined { (h : List Record) → IsTimed Three page.now clocks.now h
        → AreJoined (path (rules Three) h) (told h).actions begun.now }
    ensures less { IfOk result (λ next. next.left < walk.left) }
    ensures walked { IfOk result (λ next. (h : List Record) → IsTimed Three page.now clocks.now h
        → WalksOn (path (rules Three) h) (told h).actions asked begun.now walk next
        out.old.items out.new.items) }
    ensures same { OnErr result (out.new.items ≡ out.old.items) }
{
    let task = begun[walk.left - 1];
    if is_covered(clocks, task.task, walk.handed) {
        return Ok(Walk {
            left: task.run,
            handed: walk.handed,
        });
    }
    if !passes(clocks, asked, task.task) {
        return Ok(Walk {
            left: walk.left - 1,
            handed: walk.handed,
        });
    }
    hand(page.latest_piece(task.event), out)?;
    Ok(Walk {
        left: task.run,
        handed: Some(task.task),
    })
}

/// Hands latest pieces of tasks that are as asked: so many that each other one goes
/// before one of them.
pub(crate) fn hand_before(
    page: &Page,
    clocks: &Clocks,
    asked: Asked,
    begun: &[BegunTask],
    out: &mut SmallVec<u32, 8>,
) -> Result<(), NoMemory>
    requires events { ∥ HasEvents page.now (map event_in begun.now) ∥₁ }
    requires runs { AreRuns begun.now }
    requires joined { (h : List Record) → IsTimed Three page.now clocks.now h
        → AreJoined (path (rules Three) h) (told h).actions begun.now }
    ensures whole { OnOk result ((h : List Record) → IsTimed Three page.now clocks.now h
        → HandsOf (path (rules Three) h) (told h).actions asked begun.now 0
        out.old.items out.new.items) }
    ensures part { OnErr result ((h : List Record) → IsTimed Three page.now clocks.now h
        → HandsSomeOf (path (rules Three) h) (told h).actions asked begun.now 0
        out.old.items out.new.items) }
{
    let mut walk = Walk {
        left: begun.len(),
        handed: None,
    };
    while walk.left > 0 {
        walk = walk_on(page, clocks, asked, begun, walk, out)?;
    }
    Ok(())
}
