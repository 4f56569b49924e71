//! The trace format `webtrace`: what its records are, and how they and whole traces are spelled.
#![tactic(auto)]

pub mod fault;
pub mod name;
pub mod nesting;
pub mod record;
pub mod sharing;
pub mod trace;
pub mod version;
