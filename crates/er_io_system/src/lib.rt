//! The ends that there are: over the standard library's readers and writers, in memory,
//! and such as never fail.
#![tactic(auto)]

mod adapters;
mod calls;
mod counted;
mod memory_sink;
mod memory_source;
mod sure;

pub use adapters::{FromRead, ToWrite};
pub use memory_sink::MemorySink;
pub use memory_source::MemorySource;
pub use sure::{SureSink, SureSource};
