//! Rules 24 to 31.

ghost use Rattle.std.specs.Prelude.{◌≡◌, ◌==◌, ℕ, Bool, List};
ghost use Rattle.er_trace.specs.declared.record.Record.{Record};
ghost use Rattle.er_paths.specs.Paths.{is_among, joins};
ghost use Rattle.er_history.specs.Rules as rules;
ghost use Rattle.er_history.specs.Edges.{up_to};
ghost use Rattle.er_history.specs.Tasks.{TaskKind, task_made};
ghost use Rattle.er_clocks.specs.Clock.{StandsFor};
ghost use Rattle.er_page.specs.Page.{IsPage};
ghost use Rattle.er_tasks.specs.Tasks.{task_at};
ghost use Rattle.er_reasons.specs.Shown.{holds, least, what_shown};
ghost use Rattle.er_reasons.specs.Words.{is_declarer, declares};

use crate::elements::recorded;
use crate::event::{Event, What};
use crate::numbers::least_from;
use crate::paths::leads_before;
use er_clocks::Clocks;
use er_page::page::Page;
use er_tasks::tasks::Task;

/// The least number of a rule on tasks that holds from u to v.
pub(crate) fn task_rule(page: &Page, clocks: &Clocks, u: &Event<'_>, v: &Event<'_>) -> Option<u32>
    ensures { (h : List Record) (lists : List (List ℕ)) → IsPage page.now h
        → StandsFor clocks.now lists
        → result ≡ least rules.task_rules (up_to v.now.number (joins lists)) h u.now v.now }
{
    least_from(
        24,
        &[
            post_before_message(page, u, v),
            messages_in_order(page, clocks, u, v),
            ask_before_anim(page, u, v),
            anims_in_order(page, clocks, u, v),
            queue_before_job(page, u, v),
            jobs_in_order(page, clocks, u, v),
            jobs_before_callbacks(page, u, v),
            jobs_before_close(page, u, v),
        ],
    )
}

fn post_before_message(page: &Page, u: &Event<'_>, v: &Event<'_>) -> bool
    ensures { (joined : ℕ → ℕ → Bool) (h : List Record) → IsPage page.now h
        → result ≡ holds rules.post_before_message joined h u.now v.now }
{
    match v.what {
        What::MessageRun { message } => is_declarer(page, page.message(message), u.number),
        _ => false,
    }
}

fn messages_in_order(page: &Page, clocks: &Clocks, u: &Event<'_>, v: &Event<'_>) -> bool
    ensures { (h : List Record) (lists : List (List ℕ)) → IsPage page.now h
        → StandsFor clocks.now lists
        → result ≡ holds rules.messages_in_order (up_to v.now.number (joins lists)) h u.now v.now }
{
    let first = recorded(u, v);
    match u.what {
        What::MessageRun { message } => match v.what {
            What::MessageRun { message: later } => {
                first
                    & in_order(
                        page,
                        clocks,
                        page.message(message),
                        page.message(later),
                        v.number,
                    )
            }
            _ => false,
        },
        _ => false,
    }
}

fn ask_before_anim(page: &Page, u: &Event<'_>, v: &Event<'_>) -> bool
    ensures { (joined : ℕ → ℕ → Bool) (h : List Record) → IsPage page.now h
        → result ≡ holds rules.ask_before_anim joined h u.now v.now }
{
    match v.what {
        What::AnimRun { anim } => is_declarer(page, page.anim(anim), u.number),
        _ => false,
    }
}

fn anims_in_order(page: &Page, clocks: &Clocks, u: &Event<'_>, v: &Event<'_>) -> bool
    ensures { (h : List Record) (lists : List (List ℕ)) → IsPage page.now h
        → StandsFor clocks.now lists
        → result ≡ holds rules.anims_in_order (up_to v.now.number (joins lists)) h u.now v.now }
{
    let first = recorded(u, v);
    match u.what {
        What::AnimRun { anim } => match v.what {
            What::AnimRun { anim: later } => {
                first & in_order(page, clocks, page.anim(anim), page.anim(later), v.number)
            }
            _ => false,
        },
        _ => false,
    }
}

fn queue_before_job(page: &Page, u: &Event<'_>, v: &Event<'_>) -> bool
    ensures { (joined : ℕ → ℕ → Bool) (h : List Record) → IsPage page.now h
        → result ≡ holds rules.queue_before_job joined h u.now v.now }
{
    match v.what {
        What::JobRun { job, .. } => is_declarer(page, page.job(job), u.number),
        _ => false,
    }
}

fn jobs_in_order(page: &Page, clocks: &Clocks, u: &Event<'_>, v: &Event<'_>) -> bool
    ensures { (h : List Record) (lists : List (List ℕ)) → IsPage page.now h
        → StandsFor clocks.now lists
        → result ≡ holds rules.jobs_in_order (up_to v.now.number (joins lists)) h u.now v.now }
{
    let first = recorded(u, v);
    match u.what {
        What::JobRun { job, .. } => match v.what {
            What::JobRun { job: later, .. } => {
                first & in_order(page, clocks, page.job(job), page.job(later), v.number)
            }
            _ => false,
        },
        _ => false,
    }
}

/// Rule 30: what the event that queued the job has set, posted or asked for.
fn jobs_before_callbacks(page: &Page, u: &Event<'_>, v: &Event<'_>) -> bool
    ensures { (joined : ℕ → ℕ → Bool) (h : List Record) → IsPage page.now h
        → result ≡ holds rules.jobs_before_callbacks joined h u.now v.now }
{
    let first = recorded(u, v);
    match u.what {
        What::JobRun { job, .. } => match page.job(job) {
            Some(queued) => first & declares(page, queued.maker, v),
            None => false,
        },
        _ => false,
    }
}

/// Whether this event declared what v is a callback or a message of.
fn declares(page: &Page, maker: u32, v: &Event<'_>) -> bool
    ensures { (h : List Record) → IsPage page.now h
        → result ≡ declares maker (what_shown h v.now.what) }
{
    match v.what {
        What::TimeoutRun { timeout } => is_it(page.maker_of_timeout(timeout), maker),
        What::TickRun { maker: setter, .. } => is_it(setter, maker),
        What::MessageRun { message } => is_declarer(page, page.message(message), maker),
        What::AnimRun { anim } => is_declarer(page, page.anim(anim), maker),
        _ => false,
    }
}

/// Rule 31: the job began while the dispatch was on the stack.
fn jobs_before_close(page: &Page, u: &Event<'_>, v: &Event<'_>) -> bool
    ensures { (joined : ℕ → ℕ → Bool) (h : List Record) → IsPage page.now h
        → result ≡ holds rules.jobs_before_close joined h u.now v.now }
{
    let first = recorded(u, v);
    match u.what {
        What::JobRun { event, .. } => match v.what {
            What::CloseOf { dispatch } => first & is_among(event, page.jobs_in(dispatch.number)),
            _ => false,
        },
        _ => false,
    }
}

fn is_among(event: u32, events: &[u32]) -> bool
    ensures { result ≡ is_among event events.now }
{
    events.iter().any(|other| *other == event)
}

/// Whether the number is this one.
fn is_it(found: Option<u32>, number: u32) -> bool
    ensures { result ≡ rules.is_some_and (λ (k : ℕ). k == number) found }
{
    match found {
        Some(found) => found == number,
        None => false,
    }
}

/// Whether this event declared the task, which the page has.
fn is_declarer(page: &Page, task: Option<Task>, event: u32) -> bool
    ensures { (kind : TaskKind) (number : ℕ) (h : List Record) → IsPage page.now h
        → task ≡ task_at kind page.now.tasks number
        → result ≡ is_declarer (task_made kind h number) event }
{
    match task {
        Some(task) => task.maker == event,
        None => false,
    }
}

/// Whether both tasks are declared, the first before the other, and a path among the actions before
/// this one leads from its piece to that of the other. The page has both.
fn in_order(
    page: &Page,
    clocks: &Clocks,
    first: Option<Task>,
    second: Option<Task>,
    before: u32,
) -> bool
    ensures { (kind : TaskKind) (m n : ℕ) (h : List Record) (lists : List (List ℕ))
        → IsPage page.now h → StandsFor clocks.now lists
        → first ≡ task_at kind page.now.tasks m → second ≡ task_at kind page.now.tasks n
        → result
        ≡ rules.declared_in_order (up_to before (joins lists))
        (task_made kind h m) (task_made kind h n) }
{
    let Some(earlier) = first else {
        return false;
    };
    let Some(later) = second else {
        return false;
    };
    let declared = earlier.rank < later.rank;
    declared & leads_before(clocks, earlier.piece, later.piece, before)
}
