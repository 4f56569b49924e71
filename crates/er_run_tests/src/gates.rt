//! Gates of tests, which make threads as another host does: one counts how often shards enter, the
//! other holds one of two shards.

use er_shard::Gate;
use std::sync::atomic::{AtomicU64, Ordering};
use std::thread::Threads;

/// How often a held shard looks whether the other has entered.
const MOST_LOOKS: u64 = 1_000_000_000;

/// Counts how often shard 0 enters, and how often the other shards do.
pub(crate) struct Counting<'a, R> {
    rt: &'a R,
    first: AtomicU64,
    others: AtomicU64,
}

impl<R> Drop for Counting<'_, R> {
    fn drop(self) {
        let Counting {
            rt: _,
            first: _,
            others: _,
        } = self;
    }
}

impl<'a, R> Counting<'a, R> {
    pub(crate) fn new(rt: &'a R) -> Self {
        Counting {
            rt,
            first: AtomicU64::new(0),
            others: AtomicU64::new(0),
        }
    }

    /// How often shard 0 and the other shards entered.
    pub(crate) fn counts(&self) -> (u64, u64) {
        (
            self.first.load(Ordering::SeqCst),
            self.others.load(Ordering::SeqCst),
        )
    }

    /// Of two shards, how often the other one entered.
    fn of_other(&self, shard: u32) -> u64 {
        if shard == 0 {
            self.others.load(Ordering::SeqCst)
        } else {
            self.first.load(Ordering::SeqCst)
        }
    }
}

impl<R: Threads> Threads for Counting<'_, R> {}

impl<R: Threads> Gate for Counting<'_, R> {
    fn enter(&self, shard: u32) {
        if shard == 0 {
            self.first.fetch_add(1, Ordering::SeqCst);
        } else {
            self.others.fetch_add(1, Ordering::SeqCst);
        }
    }
}

/// Of two shards, holds one until the other has entered.
pub(crate) struct Holding<'a, R> {
    held: u32,
    entered: Counting<'a, R>,
    gave_up: AtomicU64,
}

impl<R> Drop for Holding<'_, R> {
    fn drop(self) {
        let Holding {
            held: _,
            entered: _,
            gave_up: _,
        } = self;
    }
}

impl<'a, R> Holding<'a, R> {
    pub(crate) fn new(rt: &'a R, held: u32) -> Self {
        Holding {
            held,
            entered: Counting::new(rt),
            gave_up: AtomicU64::new(0),
        }
    }

    /// Whether both entered, and the held one because the other had.
    pub(crate) fn saw_both(&self) -> bool {
        let (first, second) = self.entered.counts();
        first > 0 && second > 0 && self.gave_up.load(Ordering::SeqCst) == 0
    }
}

impl<R: Threads> Threads for Holding<'_, R> {}

impl<R: Threads> Gate for Holding<'_, R> {
    fn enter(&self, shard: u32) {
        self.entered.enter(shard);
        if shard != self.held {
            return;
        }
        for _ in 0..MOST_LOOKS {
            if self.entered.of_other(shard) > 0 {
                return;
            }
        }
        self.gave_up.store(1, Ordering::SeqCst);
    }
}
