//! Which types threads may take and share.

/// Is refused where a type could not cross threads.
pub fn may_cross_threads<T: Send + Sync>() {}
