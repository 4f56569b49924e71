//! The page that a list of accepted records stands for: what is claimed, the stack, the pieces of
//! events, what came last, and the jobs of dispatches.
//!
//! Each family of rules answers with the calls of `handing` which actions must come before a
//! record. On `Ok` the numbers have grown by exactly what is due; where memory runs out, by a
//! proper front of it.
#![tactic(auto)]

pub mod handing;
pub mod laws;
pub mod look_ups;
pub mod page;
pub mod piece;
mod pieces;
mod roles;
mod stack;
mod starts;
pub mod task_look_ups;
mod within;
