//! A report and a refusal as one line of JSON.
#![tactic(auto)]

mod fragments;
pub mod laws;
mod location;
mod parts;
mod writer;

pub use writer::{write_json_refusal, write_json_report};
