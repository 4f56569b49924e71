//! Messages, animation callbacks and jobs: tasks of three kinds, each numbered apart from all else.
//! What declared each, which have begun, and which event queued which jobs.
//!
//! `Tasks` stands for each list of accepted records that its tables tell of (`TasksAre` of
//! specs/Tasks.antt).
//! A look-up answers what its word of er_history (specs/LookUps.antt) says of such a list, and
//! `None` where the list has nothing of the kind.
//! None takes memory.
//!
//! - a record that comes next: `is_unknown`, `is_again`
//! - a message: `message`, `message_piece`, `message_event`; all that have begun: `messages`,
//!   `begun_messages`
//! - an animation callback: `anim`, `anim_piece`, `anim_event`; all that have begun: `anims`,
//!   `begun_anims`
//! - a job: `job`, `job_piece`, `job_event`; all that have begun: `jobs`, `begun_jobs`
//! - an event: `jobs_queued`, `begun_jobs_of`
//! - two notes: `declared_before`
//!
//! A record is taken in two steps. `make_room` may answer `NoMemory`, and leaves what the tasks
//! stand for;
//! `take` needs the room, where the record is a task's, and the action that runs when the record
//! has been read, with its event (`Now`), and can't fail.
//! `forms::is_of_task` tells whether it is one's: where it is not, `make_room` can be left out.
#![tactic(auto)]

mod begun;
pub mod forms;
pub mod look_ups;
mod naming;
mod queued;
mod table;
pub mod tasks;
