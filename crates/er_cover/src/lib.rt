//! Which races cover which: classes of races, the maximal ones among them, and the group
//! that each race names.
#![tactic(auto)]

mod class;
mod classes;
mod fault;
mod grouping;
mod groups;
mod heads;
pub mod laws;
mod maximal;
mod names;
mod parts;
pub mod sharing;

pub use class::Class;
pub use fault::CoverFault;
pub use grouping::group;
pub use groups::Groups;
pub use parts::{Classes, gather, make_classes, name_part};
