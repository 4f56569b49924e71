//! The races among the accesses of a table.
#![tactic(auto)]

mod columns;
mod fault;
pub mod laws;
mod lister;
mod location;
mod race;
pub mod sharing;

pub use fault::ListFault;
pub use lister::{list, list_part};
pub use location::MOST_RACES;
pub use race::Race;
