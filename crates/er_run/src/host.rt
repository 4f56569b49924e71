//! What a run works with.

ghost use Rattle.std.specs.Prelude.{◌≡◌};

use er_shard::Work;
use std::alloc::Global;

/// What makes the threads and is called by each shard before its first comparison, and what
/// allocates.
pub struct Host<'a, R> {
    pub rt: &'a R,
    pub alloc: Global,
}

impl<R> Drop for Host<'_, R> {
    fn drop(self) {
        let Host { rt: _, alloc: _ } = self;
    }
}

impl<'a, R> Host<'a, R> {
    /// The work of this host in so many shards.
    pub(crate) fn in_shards(&self, shards: u32) -> Work<'a, R>
        ensures { result.shards ≡ shards }
    {
        Work {
            rt: self.rt,
            alloc: self.alloc,
            shards,
        }
    }
}
