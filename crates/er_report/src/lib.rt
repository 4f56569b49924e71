//! The text of a report, of a summary, and of a refusal.
#![tactic(auto)]

mod counts;
pub mod laws;
mod lines;
mod summary;
mod writer;

pub use counts::{Counts, count_all};
pub use lines::RaceLine;
pub use summary::write_summary;
pub use writer::{write_refusal, write_report};
