//! What declared messages, animation callbacks and jobs, which have begun, and how one record more
//! is taken.

ghost use Rattle.std.specs.Prelude.{[], OnOk};
ghost use Rattle.er_history.specs.Taken.{StillStands, Takes};
ghost use Rattle.er_tasks.specs.Tasks.{HaveRoomFor, HaveRoomIfTask, TasksAre};

use crate::forms::{anim_in, asked_in, is_of_task, job_in, message_in, posted_in, queued_in};
use crate::queued::Queued;
use crate::table::TaskTable;
use er_history::firsts::Now;
use er_io::NoMemory;
use er_trace::record::Record;
use std::alloc::Global;

/// What declared a message, an animation callback or a job: the event and the piece, and how many
/// of its kind were declared before.
#[derive(Clone, Copy)]
pub struct Task {
    pub maker: u32,
    pub piece: u32,
    pub rank: usize,
}

/// A task whose event has begun: its number, the event, and what declared it. From the place `run`
/// of its list on, each task before it was declared before it in the same piece.
#[derive(Clone, Copy)]
pub struct BegunTask {
    pub number: u32,
    pub event: u32,
    pub task: Task,
    pub run: usize,
}

/// The tasks of each kind, and the jobs that have begun by the events that queued them.
pub struct Tasks {
    pub(crate) messages: TaskTable,
    pub(crate) anims: TaskTable,
    pub(crate) jobs: TaskTable,
    pub(crate) queued: Queued,
}

impl Drop for Tasks {
    fn drop(self) {
        let Tasks {
            messages: _,
            anims: _,
            jobs: _,
            queued: _,
        } = self;
    }
}

impl Tasks {
    /// No task yet. It takes no memory.
    pub fn new(alloc: Global) -> Self
        ensures { TasksAre result [] }
    {
        Tasks {
            messages: TaskTable::new(alloc),
            anims: TaskTable::new(alloc),
            jobs: TaskTable::new(alloc),
            queued: Queued::new(alloc),
        }
    }

    /// Makes room for what the record declares or begins.
    pub fn make_room(&mut self, rec: &Record) -> Result<(), NoMemory>
        ensures kept { StillStands TasksAre self.old self.new }
        ensures room { OnOk result (HaveRoomFor self.new rec.now) }
    {
        self.messages.make_room(posted_in(rec), message_in(rec))?;
        self.anims.make_room(asked_in(rec), anim_in(rec))?;
        self.jobs.make_room(queued_in(rec), job_in(rec))?;
        let queuer = self.jobs.maker(job_in(rec));
        self.queued.make_room(queuer)
    }

    /// Takes the record, after which this action runs.
    pub fn take(&mut self, rec: &Record, now: Now)
        requires room { HaveRoomIfTask self.old rec.now }
        ensures { Takes TasksAre self.old self.new rec.now now }
    {
        if !is_of_task(rec) {
            return;
        }
        let _message = self.messages.take(posted_in(rec), message_in(rec), now);
        let _anim = self.anims.take(asked_in(rec), anim_in(rec), now);
        let job = self.jobs.take(queued_in(rec), job_in(rec), now);
        self.queued.take(job, now.event);
    }
}
