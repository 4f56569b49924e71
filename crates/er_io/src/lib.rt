//! The outside of the program: where bytes come from, and where they go.
#![tactic(auto)]

mod ends;
mod put;
mod sharing;

pub use ends::{Failed, NoMemory, Sink, Source, WriteFault};
pub use put::put_all;
pub use sharing::may_cross_threads;
