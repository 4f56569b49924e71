//! Threads may take and share locations and modes.

use crate::name::Name;
use crate::record::{Loc, Mode};
use er_io::may_cross_threads;

/// Where a type could not cross threads, this would be refused.
pub fn types_may_cross_threads() {
    may_cross_threads::<Name>();
    may_cross_threads::<Loc>();
    may_cross_threads::<Mode>();
}
