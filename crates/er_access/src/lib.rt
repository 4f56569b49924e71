//! The kept accesses of a trace, by their locations.
#![tactic(auto)]

pub mod access;
mod add;
mod fault;
pub mod laws;
mod place;
mod row_list;
pub mod sharing;
mod table;

pub use access::Access;
pub use fault::AddFault;
pub use table::Table;
