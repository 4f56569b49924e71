//! What came last among the actions of a page: by document, interval, request, dispatch and target.
//!
//! A [`latest::Latest`] is told, action by action, the [`role::Role`] of the action's
//! event. In contracts:
//!
//! - `specs/Roles.antt`: `role_of what` is the role of what an event is, and `said_by role` the one
//!   that a `Role` says, with a name as the list of its bytes.
//! - `specs/Latest.antt`: `LatestAre latest actions`, that each look-up is what the list of actions
//!   says, newest first; `HasRoomOf latest role`, that `take` may be called; `Answers latest said
//!   result`, that a look-up answers what `said` reads in the list.
//! - What each look-up answers is over a list of actions, with the words of er_history: for `(told
//!   h).actions` it computes to the word of er_history `LookUps` of the same name.
#![tactic(auto)]

mod groups;
pub mod latest;
mod lists;
pub mod look_ups;
mod named;
mod newest;
pub mod role;
