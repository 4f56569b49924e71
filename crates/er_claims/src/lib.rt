//! What the records have declared, started and finished, by number: all but messages, animation
//! callbacks and jobs (er_tasks).
//!
//! `Claimed` stands for each list of accepted records that its tables tell of (`ClaimedAre` of
//! specs/Claimed.antt).
//! A look-up answers what its word of er_history (specs/LookUps.antt) says of such a list, and
//! `None` where the list has nothing of the kind.
//! None takes memory.
//!
//! - a record that comes next: `is_unknown`, `is_again`, `is_not_script`
//! - a number that was declared, its maker: `maker_of_element`, `maker_of_document`,
//!   `maker_of_handler`, `maker_of_timeout`, `maker_of_interval`, `maker_of_request`
//! - an element: `element`, `document_of`, `is_static`, `parse_action`; a script: `script_kind`,
//!   `run_of`; a frame: `inner_of`; its load: `eload_of`
//! - a document: `frame_of`, `dcl_of`, `load_of`
//! - a timeout: `timeout`, `delay_of`, `setting_piece`, `timer_event`; two of them: `set_before`;
//!   all that have fired: `fired`, `fired_timeouts`
//! - a dispatch: `begin_event`, `close_event`
//! - an event: `fired_with`, `fired_timeouts_with`
//!
//! A record is taken in two steps. `make_room` may answer `NoMemory`, and leaves what the
//! tables stand for;
//! `take` needs the room and the action that runs when the record has been read, with its event
//! (`Now`), and can't fail.
#![tactic(auto)]

pub mod claimed;
mod counted;
mod fired;
pub mod look_ups;
mod made;
mod naming;
mod notes;
mod tables;
