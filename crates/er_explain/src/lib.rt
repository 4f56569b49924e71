//! Why two actions are ordered: a list of links from the one to the other, each with the
//! rule that makes it.
#![tactic(auto)]

mod explanation;
mod rule;
mod source;
mod steps;
mod write;

pub use explanation::explain;
pub use rule::rule_of;
pub use steps::{Step, Steps};
pub use write::write_steps;
