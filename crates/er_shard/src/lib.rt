//! The races among the accesses of a table listed, and their covers named, in threads.
#![tactic(auto)]

mod gate;
mod groups;
mod names;
mod part;
mod shards;
pub mod sharing;
mod work;

pub use gate::{FreeGate, Gate};
pub use groups::group_shards;
pub use shards::list_shards;
pub use work::Work;
