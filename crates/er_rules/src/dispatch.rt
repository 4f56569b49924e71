//! Dispatches: the rules that order the begin, the handlers and the close of a dispatch, and the
//! pieces around an inline one.
//!
//! - Rule 14: the event that made an element comes before the begin of a dispatch of a type at it,
//!   and the event that declared a document before that of a dispatch at its window, of
//!   DOMContentLoaded and of load (this project's own).
//! - Rule 15: the event that registered a handler comes before each run of it (this project's own).
//! - Rule 16: the begin of a dispatch comes before its handlers and its close, and a handler before
//!   those of a greater group and before the close (groups are this project's own; between the
//!   listeners of one target DOM Level 2 Events fixes no order).
//! - Rule 17: the close of a dispatch comes before the begin of another of its type at its target,
//!   where the trace has them so (this project's own).
//! - Rule 22: the piece that an inline dispatch suspends comes before its begin, and each piece of
//!   its close before the piece that its `back` begins (this project's own).
//! - Rule 23: an earlier piece of an event comes before a later one (this project's own).
//!
//! Rules 14 to 17 speak of events, as those of the other modules do; rules 22 and 23 speak of
//! pieces. So what is handed here is enough for both, at `back` too.

pub mod against;
mod groups;
pub mod laws;
pub mod predecessors;
mod targets;
