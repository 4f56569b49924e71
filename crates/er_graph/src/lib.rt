//! Records accepted one after the other, and which of the actions that they begin a path joins.
#![tactic(auto)]

mod accept;
mod again;
pub mod graph;
mod grow;
mod order;

pub use graph::Graph;
