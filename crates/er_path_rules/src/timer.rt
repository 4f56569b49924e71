//! Timers: the rules that order the callbacks of timeouts and of intervals.
//!
//! - Rule 18: the event that set a timeout comes before its callback (HTML Standard, "Timers").
//! - Rule 19: the callback of a timeout comes before that of another that was set later with no
//!   lesser delay, where the trace has them so (HTML Standard, "Timers"; that delays alone are
//!   compared is this project's own): in version 1 where the same event set both, in versions 2 and
//!   3 where a path leads from the piece that set the first to the piece that set the second.
//! - Rule 20: the event that set an interval comes before each callback of it, and a callback
//!   before a later one of the same interval (HTML Standard, "Timers").

pub mod against;
mod fired;
pub mod laws;
pub mod predecessors;
