//! Threads may take and share chains, clocks and meters.

use crate::{Chains, Clocks, Meter};
use er_io::may_cross_threads;

/// Where a type could not cross threads, this would be refused.
pub fn types_may_cross_threads() {
    may_cross_threads::<Chains>();
    may_cross_threads::<Clocks>();
    may_cross_threads::<Meter>();
}
