//! What the shards of one work are given.

use std::alloc::Global;

/// What makes the threads and is called by each shard before its first comparison, what allocates,
/// and how many shards there are.
pub struct Work<'a, R> {
    pub rt: &'a R,
    pub alloc: Global,
    pub shards: u32,
}

impl<R> Drop for Work<'_, R> {
    fn drop(self) {
        let Work {
            rt: _,
            alloc: _,
            shards: _,
        } = self;
    }
}
