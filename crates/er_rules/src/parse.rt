//! Parsing: the rules that order the parse steps of a document.
//!
//! - Rule 1: a parse step of a document comes before each parse step of it that is recorded later
//!   (the HTML Standard, "Parsing HTML documents": the tree is built in the order of the input).
//! - Rule 2: the event that declared a document comes before each parse step of it (this
//!   project's own).
//!
//! Before a parse step the latest one of the document stands for all earlier ones, since they are
//! joined in their order.

pub mod against;
mod due;
pub mod laws;
pub mod predecessors;
