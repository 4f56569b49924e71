//! Requests: the rule that orders their replies.
//!
//! - Rule 21: the event that sent a request comes before the begin of each reply of it, and the
//!   close of a reply before the begin of a later reply of the same request, where the trace has
//!   them so (this project's own).

pub mod against;
pub mod laws;
pub mod predecessors;
