//! What the list of accepted records says of messages, animation callbacks and jobs. No look-up
//! takes memory.

ghost use Rattle.std.specs.Prelude.{◌≡◌, List, map};
ghost use Rattle.er_trace.specs.declared.record.Record.{Record};
ghost use Rattle.er_history.specs.LookUps as says;
ghost use Rattle.er_history.specs.Tasks.{OfMessage, OfAnim, OfJob, queued_jobs};
ghost use Rattle.er_tasks.specs.Begun.{task_number};
ghost use Rattle.er_tasks.specs.Tasks.{Answers, HaveBegun, TasksAre, task_at};

use crate::tasks::{BegunTask, Task, Tasks};
use er_trace::record::Record;

/// Messages.
impl Tasks {
    /// The piece that posted the message.
    pub fn message_piece(&self, message: u32) -> Option<u32>
        ensures { Answers self.now (λ h. says.message_piece h message) result }
    {
        self.messages.piece(message)
    }

    /// The event of the message.
    pub fn message_event(&self, message: u32) -> Option<u32>
        ensures { Answers self.now (λ h. says.message_event h message) result }
    {
        self.messages.event(message)
    }

    /// The messages whose events have begun, in order.
    pub fn messages(&self) -> &[u32]
        ensures { Answers self.now says.messages result.now }
    {
        self.messages.numbers()
    }

    /// What posted the message.
    pub fn message(&self, message: u32) -> Option<Task>
        ensures { result ≡ task_at OfMessage self.now message }
    {
        self.messages.task(message)
    }

    /// The messages whose events have begun, in order, with what posted them.
    pub fn begun_messages(&self) -> &[BegunTask]
        ensures numbers { Answers self.now says.messages (map task_number result.now) }
        ensures begun { (h : List Record) → TasksAre self.now h
            → HaveBegun OfMessage self.now result.now }
    {
        self.messages.tasks()
    }
}

/// Animation callbacks.
impl Tasks {
    /// The piece that asked for the callback.
    pub fn anim_piece(&self, anim: u32) -> Option<u32>
        ensures { Answers self.now (λ h. says.anim_piece h anim) result }
    {
        self.anims.piece(anim)
    }

    /// The event that is the callback.
    pub fn anim_event(&self, anim: u32) -> Option<u32>
        ensures { Answers self.now (λ h. says.anim_event h anim) result }
    {
        self.anims.event(anim)
    }

    /// The callbacks that have begun, in order.
    pub fn anims(&self) -> &[u32]
        ensures { Answers self.now says.anims result.now }
    {
        self.anims.numbers()
    }

    /// What asked for the callback.
    pub fn anim(&self, anim: u32) -> Option<Task>
        ensures { result ≡ task_at OfAnim self.now anim }
    {
        self.anims.task(anim)
    }

    /// The callbacks that have begun, in order, with what asked for them.
    pub fn begun_anims(&self) -> &[BegunTask]
        ensures numbers { Answers self.now says.anims (map task_number result.now) }
        ensures begun { (h : List Record) → TasksAre self.now h
            → HaveBegun OfAnim self.now result.now }
    {
        self.anims.tasks()
    }
}

/// Jobs.
impl Tasks {
    /// The piece that queued the job.
    pub fn job_piece(&self, job: u32) -> Option<u32>
        ensures { Answers self.now (λ h. says.job_piece h job) result }
    {
        self.jobs.piece(job)
    }

    /// The event that is the job.
    pub fn job_event(&self, job: u32) -> Option<u32>
        ensures { Answers self.now (λ h. says.job_event h job) result }
    {
        self.jobs.event(job)
    }

    /// The jobs that have begun, in order.
    pub fn jobs(&self) -> &[u32]
        ensures { Answers self.now says.jobs result.now }
    {
        self.jobs.numbers()
    }

    /// The events of the jobs queued in the event that have begun, in order.
    pub fn jobs_queued(&self, event: u32) -> &[u32]
        ensures { Answers self.now (λ h. says.jobs_queued h event) result.now }
    {
        self.queued.events(event)
    }

    /// What queued the job.
    pub fn job(&self, job: u32) -> Option<Task>
        ensures { result ≡ task_at OfJob self.now job }
    {
        self.jobs.task(job)
    }

    /// The jobs that have begun, in order, with what queued them.
    pub fn begun_jobs(&self) -> &[BegunTask]
        ensures numbers { Answers self.now says.jobs (map task_number result.now) }
        ensures begun { (h : List Record) → TasksAre self.now h
            → HaveBegun OfJob self.now result.now }
    {
        self.jobs.tasks()
    }

    /// The jobs queued in the event that have begun, in order, with what queued them.
    pub fn begun_jobs_of(&self, event: u32) -> &[BegunTask]
        ensures numbers { Answers self.now (λ h. queued_jobs h event) (map task_number result.now) }
        ensures begun { (h : List Record) → TasksAre self.now h
            → HaveBegun OfJob self.now result.now }
    {
        self.queued.tasks(event)
    }
}

/// Notes.
impl Tasks {
    /// Whether two notes of one kind declare numbers that are declared, the first in an earlier
    /// line.
    pub fn declared_before(&self, first: &Record, second: &Record) -> bool
        ensures { Answers self.now (λ h. says.declared_before h first.now second.now) result }
    {
        match (first, second) {
            (Record::Post { message: earlier }, Record::Post { message: later }) => {
                self.messages.is_before(*earlier, *later)
            }
            (Record::Ask { anim: earlier }, Record::Ask { anim: later }) => {
                self.anims.is_before(*earlier, *later)
            }
            (Record::Queue { job: earlier }, Record::Queue { job: later }) => {
                self.jobs.is_before(*earlier, *later)
            }
            _ => false,
        }
    }
}
