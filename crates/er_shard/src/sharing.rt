//! Threads may share a gate.

use crate::FreeGate;
use er_io::may_cross_threads;

/// Where the type could not cross threads, this would be refused.
pub fn types_may_cross_threads<'a, R: Sync + 'a>() {
    may_cross_threads::<FreeGate<'a, R>>();
}
