//! The pieces that come before the action that a record would begin.

ghost use Rattle.std.specs.Prelude.{◌≡◌, List, length, take, OnOk, OnErr};
ghost use Rattle.er_trace.specs.declared.record.Record.{Record};
ghost use Rattle.er_trace.specs.declared.version.Version.TheVariants.{Three};
ghost use Rattle.er_history.specs.Kinds.{is_job_within};
ghost use Rattle.er_history.specs.LookUps.{jobs_in};
ghost use Rattle.er_page.specs.Page.{IsPage, IsSomePage};
ghost use Rattle.er_pieces.specs.Contract.{HandsFew};
ghost use Rattle.er_path_rules.specs.task.Counts.{most_task, queued_count};
ghost use Rattle.er_path_rules.specs.task.Enough.{HandsEnoughTasks, HandsSourceTasks};
ghost use Rattle.er_path_rules.specs.task.Handed.{HandsEnoughOf, HandsSome};
ghost use Rattle.er_path_rules.specs.task.Kinds.{shown};
ghost use Rattle.er_path_rules.specs.task.Parts.{callback_count, callback_due, due_for, jobs_due, task_count, task_due};
ghost use Rattle.er_path_rules.specs.timer.Timed.{IsTimed, IsSomeTimed};

use crate::task::before::{Asked, hand_before};
use crate::task::kinds::{Kind, begun, made, maker};
use er_clocks::Clocks;
use er_io::NoMemory;
use er_page::handing::{hand_each, hand_latest};
use er_page::page::Page;
use er_trace::record::Record;
use smallvec::SmallVec;

/// Hands the latest pieces of events that come before the event which the record begins, in version
/// 3: of the one that declared a task, of tasks of its kind, of jobs that the event which declared
/// it queued, and of the jobs that began while a dispatch was on the stack. Any other record is
/// handed nothing. The clocks are those of the page's actions in version 3.
///
/// Of events that come one before the other the last may be handed alone.
pub fn predecessors(
    page: &Page,
    clocks: &Clocks,
    rec: &Record,
    out: &mut SmallVec<u32, 8>,
) -> Result<(), NoMemory>
    requires timed { ∥ IsSomeTimed Three page.now clocks.now ∥₁ }
    ensures enough { OnOk result (HandsEnoughTasks (IsTimed Three page.now clocks.now)
        rec.now out.old.items out.new.items) }
    // Memory ran out.
    ensures sources { OnErr result (HandsSourceTasks (IsTimed Three page.now clocks.now)
        rec.now out.old.items out.new.items) }
    ensures few { HandsFew (IsTimed Three page.now clocks.now) most_task
        rec.now out.old.items out.new.items }
    // What was handed before stays in front.
    ensures kept { take (length out.old.items) out.new.items ≡ out.old.items }
{
    hand(page, clocks, rec, out)
}

/// Hands what is due for the record.
fn hand(
    page: &Page,
    clocks: &Clocks,
    rec: &Record,
    out: &mut SmallVec<u32, 8>,
) -> Result<(), NoMemory>
    requires some { ∥ IsSomePage page.now ∥₁ }
    ensures whole { OnOk result (HandsEnoughOf (IsTimed Three page.now clocks.now)
        (due_for rec.now) (λ h. most_task h rec.now) out.old.items out.new.items) }
    ensures part { OnErr result (HandsSome (IsTimed Three page.now clocks.now)
        (due_for rec.now) (λ h. most_task h rec.now) out.old.items out.new.items) }
{
    match rec {
        Record::Message { message } => hand_callback(page, clocks, Kind::Message, *message, out),
        Record::Anim { anim } => hand_callback(page, clocks, Kind::Anim, *anim, out),
        Record::Job { job } => hand_task(page, clocks, Kind::Job, *job, out),
        Record::Timer { timeout } => {
            hand_jobs_of(page, clocks, page.maker_of_timeout(*timeout), out)
        }
        Record::Tick { interval } => {
            hand_jobs_of(page, clocks, page.maker_of_interval(*interval), out)
        }
        Record::Close { dispatch } => hand_jobs_in(page, *dispatch, out),
        _ => Ok(()),
    }
}

/// Hands what comes before a message or an animation callback: what comes before a task, and the
/// jobs of the event that declared it.
fn hand_callback(
    page: &Page,
    clocks: &Clocks,
    kind: Kind,
    number: u32,
    out: &mut SmallVec<u32, 8>,
) -> Result<(), NoMemory>
    requires some { ∥ IsSomePage page.now ∥₁ }
    ensures whole { OnOk result (HandsEnoughOf (IsTimed Three page.now clocks.now)
        (callback_due (shown kind) number) (callback_count (shown kind) number)
        out.old.items out.new.items) }
    ensures part { OnErr result (HandsSome (IsTimed Three page.now clocks.now)
        (callback_due (shown kind) number) (callback_count (shown kind) number)
        out.old.items out.new.items) }
{
    hand_task(page, clocks, kind, number, out)?;
    hand_jobs_of(page, clocks, maker(page, kind, number), out)
}

/// Hands the event that declared the task, and the tasks of its kind that come before it.
fn hand_task(
    page: &Page,
    clocks: &Clocks,
    kind: Kind,
    number: u32,
    out: &mut SmallVec<u32, 8>,
) -> Result<(), NoMemory>
    requires some { ∥ IsSomePage page.now ∥₁ }
    ensures whole { OnOk result (HandsEnoughOf (IsTimed Three page.now clocks.now)
        (task_due (shown kind) number) (task_count (shown kind) number)
        out.old.items out.new.items) }
    ensures part { OnErr result (HandsSome (IsTimed Three page.now clocks.now)
        (task_due (shown kind) number) (task_count (shown kind) number)
        out.old.items out.new.items) }
{
    let Some(next) = made(page, kind, number) else {
        return Ok(());
    };
    hand_latest(page, Some(next.maker), out)?;
    hand_before(page, clocks, Asked::Before(next), begun(page, kind), out)
}

/// Hands the jobs that the event queued.
fn hand_jobs_of(
    page: &Page,
    clocks: &Clocks,
    queuer: Option<u32>,
    out: &mut SmallVec<u32, 8>,
) -> Result<(), NoMemory>
    requires some { ∥ IsSomePage page.now ∥₁ }
    ensures whole { OnOk result (HandsEnoughOf (IsTimed Three page.now clocks.now)
        (jobs_due queuer) (λ h. queued_count h queuer) out.old.items out.new.items) }
    ensures part { OnErr result (HandsSome (IsTimed Three page.now clocks.now)
        (jobs_due queuer) (λ h. queued_count h queuer) out.old.items out.new.items) }
{
    let Some(queuer) = queuer else {
        return Ok(());
    };
    hand_before(
        page,
        clocks,
        Asked::Nothing,
        page.begun_jobs_of(queuer),
        out,
    )
}

/// Hands the jobs that began while the dispatch was on the stack.
fn hand_jobs_in(page: &Page, dispatch: u32, out: &mut SmallVec<u32, 8>) -> Result<(), NoMemory>
    requires some { ∥ IsSomePage page.now ∥₁ }
    ensures whole { OnOk result (HandsEnoughOf (IsPage page.now)
        (λ h. is_job_within dispatch) (λ h. length (jobs_in h dispatch))
        out.old.items out.new.items) }
    ensures part { OnErr result (HandsSome (IsPage page.now)
        (λ h. is_job_within dispatch) (λ h. length (jobs_in h dispatch))
        out.old.items out.new.items) }
{
    hand_each(page, page.jobs_in(dispatch), out)
}
