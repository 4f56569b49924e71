//! The end of a page.

use crate::reading::Reading;

/// Lets the page go. The proof of that is long, and a caller that goes through this needs
/// none of its own.
pub(crate) fn let_go(_reading: Reading) {}
