//! What makes the threads of shards, and is called by each before its first comparison.

use std::thread::Threads;

/// Makes threads. It can hold a shard back, and count its calls.
pub trait Gate: Threads {
    fn enter(&self, shard: u32);
}

/// Makes threads as another does, and holds no shard back.
pub struct FreeGate<'a, R> {
    pub rt: &'a R,
}

impl<R> Drop for FreeGate<'_, R> {
    fn drop(self) {
        let FreeGate { rt: _ } = self;
    }
}

impl<R: Threads> Threads for FreeGate<'_, R> {}

impl<R: Threads> Gate for FreeGate<'_, R> {
    fn enter(&self, _shard: u32) {}
}
