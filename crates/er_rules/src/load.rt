//! Loads: the rules that order DOMContentLoaded and load of a document, and the first load events
//! of elements.
//!
//! - Rule 8: a parse step of a document, and the run of each of its blocking or deferred scripts,
//!   comes before DOMContentLoaded (HTML Standard, "The end").
//! - Rule 9: DOMContentLoaded, with its handlers and its close, comes before load (HTML
//!   Standard, "The end").
//! - Rule 10: a parse step, and the run of each static script, comes before load (HTML
//!   Standard, "The end").
//! - Rule 11: the close of the first load event of a static element that is not plain comes before
//!   load, where it is recorded before (this project's own).
//! - Rule 12: the event that made an element, and the run of it where it is a script, comes before
//!   its first load event (for the run the HTML Standard, "The script element"; for the rest this
//!   project's own).
//! - Rule 13: the close of load of a frame's document comes before the first load event of the
//!   frame, where it is recorded before (this project's own).
//!
//! A parse step made a static element. A blocking script is a static one of the kind `inline` or
//! `sync`, a deferred one a static one of the kind `defer`.

pub mod against;
mod due;
pub mod laws;
pub mod predecessors;
