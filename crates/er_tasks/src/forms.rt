//! Whether a record declares or begins a task, and the number that it declares, or whose event it
//! begins, of each kind of tasks.

ghost use Rattle.std.specs.Prelude.{◌≡◌, ℕ};
ghost use Rattle.er_trace.specs.Versions as versions;
ghost use Rattle.er_history.specs.History.{posts_message, asks_for_anim, queues_job};
ghost use Rattle.er_history.specs.Tasks.{OfMessage, OfAnim, OfJob, task_started};
ghost use Rattle.er_history.specs.Noted.{is_number};

use er_trace::record::Record;

/// Whether the record declares a task or begins the event of one.
pub fn is_of_task(rec: &Record) -> bool
    ensures { result ≡ versions.is_of_task rec.now }
{
    match rec {
        Record::Post { .. } | Record::Ask { .. } | Record::Queue { .. } => true,
        Record::Message { .. } | Record::Anim { .. } | Record::Job { .. } => true,
        _ => false,
    }
}

/// The message that the record posts.
pub(crate) fn posted_in(rec: &Record) -> Option<u32>
    ensures { (k : ℕ) → is_number k result ≡ posts_message k rec.now }
{
    match rec {
        Record::Post { message } => Some(*message),
        _ => None,
    }
}

/// The message whose event it begins.
pub(crate) fn message_in(rec: &Record) -> Option<u32>
    ensures { result ≡ task_started OfMessage rec.now }
{
    match rec {
        Record::Message { message } => Some(*message),
        _ => None,
    }
}

/// The animation callback that it asks for.
pub(crate) fn asked_in(rec: &Record) -> Option<u32>
    ensures { (k : ℕ) → is_number k result ≡ asks_for_anim k rec.now }
{
    match rec {
        Record::Ask { anim } => Some(*anim),
        _ => None,
    }
}

/// The animation callback that it begins.
pub(crate) fn anim_in(rec: &Record) -> Option<u32>
    ensures { result ≡ task_started OfAnim rec.now }
{
    match rec {
        Record::Anim { anim } => Some(*anim),
        _ => None,
    }
}

/// The job that it queues.
pub(crate) fn queued_in(rec: &Record) -> Option<u32>
    ensures { (k : ℕ) → is_number k result ≡ queues_job k rec.now }
{
    match rec {
        Record::Queue { job } => Some(*job),
        _ => None,
    }
}

/// The job that it begins.
pub(crate) fn job_in(rec: &Record) -> Option<u32>
    ensures { result ≡ task_started OfJob rec.now }
{
    match rec {
        Record::Job { job } => Some(*job),
        _ => None,
    }
}
