//! Threads may share what the naming of classes reads, and take what it answers.

use crate::{Classes, CoverFault};
use er_io::may_cross_threads;

/// Where a type could not cross threads, this would be refused.
pub fn types_may_cross_threads() {
    may_cross_threads::<Classes>();
    may_cross_threads::<CoverFault>();
}
