//! The generated trace: the load of a page with as many rounds as one asks for, record by record.
#![tactic(auto)]

mod forms;
mod generator;
pub mod laws;
mod records;
pub mod rows;

pub use generator::Generator;
