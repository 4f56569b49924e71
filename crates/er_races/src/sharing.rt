//! Threads may take and share what a lister answers.

use crate::{ListFault, Race};
use er_io::may_cross_threads;

/// Where a type could not cross threads, this would be refused.
pub fn types_may_cross_threads() {
    may_cross_threads::<Race>();
    may_cross_threads::<ListFault>();
}
