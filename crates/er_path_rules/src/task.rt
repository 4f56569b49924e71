//! Tasks: the rules that order messages, animation callbacks and jobs. All are this project's own.
//!
//! - Rules 24, 26 and 28: the event that posted a message, asked for an animation callback or
//!   queued a job comes before it.
//! - Rules 25, 27 and 29: a message, an animation callback or a job comes before another of its
//!   kind that was declared later, in a piece to which a path leads from the piece that declared
//!   the first, where the trace has them so.
//! - Rule 30: a job comes before the callbacks and messages that the event which queued it
//!   declared, where the trace has them so.
//! - Rule 31: a job that begins while a dispatch is on the stack comes before the close of the
//!   dispatch, where the trace has them so.

pub mod against;
mod before;
mod kinds;
pub mod laws;
pub mod predecessors;
