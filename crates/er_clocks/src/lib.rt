//! Vector clocks over chains: whether a path leads from one action to another, by one comparison of
//! two numbers.
#![tactic(auto)]

mod chains;
mod clocks;
mod fit;
pub mod laws;
mod list;
mod many;
mod meter;
mod paths;
mod push;
mod row;
mod shared;
pub mod sharing;
mod sources;

pub use chains::Chains;
pub use clocks::Clocks;
pub use meter::Meter;
pub use paths::Paths;
