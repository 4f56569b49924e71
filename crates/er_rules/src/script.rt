//! Scripts: the rules that order the runs of scripts, against the parse steps of their document and
//! against each other.
//!
//! - Rule 3: the event that made a script comes before its run (HTML Standard, "The
//!   script element").
//! - Rule 4: the run of a blocking script comes before the later parse steps of its document (HTML
//!   Standard, "The script element").
//! - Rule 5: each parse step of a document comes before the runs of its deferred scripts (HTML
//!   Standard, "The end").
//! - Rule 6: so does the run of each of its blocking scripts (HTML Standard, "The script element"
//!   and "The end").
//! - Rule 7: the deferred scripts of a document run in the order in which they were parsed (HTML
//!   Standard, "The end").
//!
//! A parse step made both: a blocking script is of the kind `inline` or `sync`, a deferred one of
//! the kind `defer`.

pub mod against;
mod due;
mod elements;
pub mod laws;
pub mod predecessors;
