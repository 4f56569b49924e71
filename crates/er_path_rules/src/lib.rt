//! The families of rules that ask whether a path leads from one piece to another: timers and tasks,
//! a module for each.
//!
//! Each module says whether a record comes too late by its rules (`against`), and hands
//! the latest pieces that must come before what the record begins (`predecessors`), for
//! which it asks the clocks.
#![tactic(auto)]

pub mod task;
pub mod timer;
