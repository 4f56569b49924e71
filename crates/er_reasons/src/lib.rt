//! Which rule puts one action before another.
#![tactic(auto)]

mod dispatch;
mod edge;
mod elements;
mod event;
pub mod laws;
mod load;
mod numbers;
mod parse;
mod paths;
mod pieces;
mod read;
mod request;
mod script;
mod task;
mod timer;

pub use edge::reason;
