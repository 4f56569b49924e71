//! Threads may take and share what a lister reads.

use crate::{Access, AddFault, Table};
use er_io::may_cross_threads;

/// Where a type could not cross threads, this would be refused.
pub fn types_may_cross_threads() {
    may_cross_threads::<Table>();
    may_cross_threads::<Access>();
    may_cross_threads::<AddFault>();
}
