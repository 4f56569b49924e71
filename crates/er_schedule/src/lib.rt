//! Two orders of all actions that show a race, and whether an order is one.
#![tactic(auto)]

mod check;
mod make;
mod schedules;
mod write;

pub use check::check_schedule;
pub use make::make_schedules;
pub use schedules::Schedules;
pub use write::write_schedules;
