//! The look-ups of a page that ask of a task of one kind.

ghost use Rattle.std.specs.Prelude.{◌≡◌, List, map, option_map};
ghost use Rattle.er_trace.specs.declared.record.Record.{Record};
ghost use Rattle.er_history.specs.Tasks.{tasks_begun};
ghost use Rattle.er_tasks.specs.declared.tasks.Task.{Task};
ghost use Rattle.er_tasks.specs.Begun.{task_number};
ghost use Rattle.er_tasks.specs.Tasks.{HaveBegun, task_at};
ghost use Rattle.er_page.specs.Page.{Answers, IsPage};
ghost use Rattle.er_path_rules.specs.task.Kinds.{shown};

use er_page::page::Page;
use er_tasks::tasks::{BegunTask, Task};

/// A kind of tasks.
#[derive(Clone, Copy)]
pub(crate) enum Kind {
    Message,
    Anim,
    Job,
}

/// What declared the task.
pub(crate) fn made(page: &Page, kind: Kind, number: u32) -> Option<Task>
    ensures { result ≡ task_at (shown kind) page.now.tasks number }
{
    match kind {
        Kind::Message => page.message(number),
        Kind::Anim => page.anim(number),
        Kind::Job => page.job(number),
    }
}

/// The event that declared the task.
pub(crate) fn maker(page: &Page, kind: Kind, number: u32) -> Option<u32>
    ensures { result
        ≡ option_map (λ (x : Task). x.maker) (task_at (shown kind) page.now.tasks number) }
{
    let made = made(page, kind, number)?;
    Some(made.maker)
}

/// The tasks that have begun, in order.
pub(crate) fn begun(page: &Page, kind: Kind) -> &[BegunTask]
    ensures numbers { Answers page.now (tasks_begun (shown kind)) (map task_number result.now) }
    ensures begun { (h : List Record) → IsPage page.now h
        → HaveBegun (shown kind) page.now.tasks result.now }
{
    match kind {
        Kind::Message => page.begun_messages(),
        Kind::Anim => page.begun_anims(),
        Kind::Job => page.begun_jobs(),
    }
}
