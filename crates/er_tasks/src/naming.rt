//! Which records use or declare what, against what is known of tasks.

ghost use Rattle.er_trace.specs.declared.record.Record.{Record};
ghost use Rattle.er_tasks.specs.Tasks.{Answers, task_again, unknown_task};

use crate::tasks::Tasks;
use er_trace::record::Record;

impl Tasks {
    /// Whether the record begins a task that no earlier record declared.
    pub fn is_unknown(&self, rec: &Record) -> bool
        ensures { Answers self.now (λ h. unknown_task h rec.now) result }
    {
        match rec {
            Record::Message { message } => !self.messages.has(*message),
            Record::Anim { anim } => !self.anims.has(*anim),
            Record::Job { job } => !self.jobs.has(*job),
            _ => false,
        }
    }

    /// Whether it declares a task that was declared before, or begins one that has begun.
    pub fn is_again(&self, rec: &Record) -> bool
        ensures { Answers self.now (λ h. task_again h rec.now) result }
    {
        match rec {
            Record::Post { message } => self.messages.has(*message),
            Record::Ask { anim } => self.anims.has(*anim),
            Record::Queue { job } => self.jobs.has(*job),
            Record::Message { message } => self.messages.has_begun(*message),
            Record::Anim { anim } => self.anims.has_begun(*anim),
            Record::Job { job } => self.jobs.has_begun(*job),
            _ => false,
        }
    }
}
