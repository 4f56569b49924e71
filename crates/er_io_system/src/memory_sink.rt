//! A sink into memory, whose calls fail where they are told to.

ghost use Rattle.std.specs.Prelude.{◌≡◌, ◌↔◌, ◌⊎◌, ◌<◌, ◌≤◌, ◌-◌, ◌++◌, [], ℕ, min, length, take, Contains, Some, IfOk, OnOk, OnErr, IsErr};
ghost use Rattle.er_io.specs.Ends.{Gets, Rose, one_more};
ghost use Rattle.er_io_system.specs.Memory.{next_call};

use crate::calls::Calls;
use er_io::{Failed, NoMemory, Sink};
use std::alloc::Global;
use std::marker::Model;

/// Takes the bytes that it is given, no more than `most` of them a call, as long as it has room.
/// Its calls are counted from 1, and those whose numbers it was made with fail, unless
/// they bring nothing.
#[derive(Drop)]
pub struct MemorySink {
    bytes: Vec<u8>,
    room: u32,
    most: u32,
    calls: Calls,
}

impl Model for MemorySink {
    ghost use Rattle.std.specs.Prelude.{◌<◌, ◌≤◌, length, vec_capacity};
    ghost use Rattle.er_io_system.specs.Memory.{Output};

    ghost Value = { Output };

    ghost view = { λ s. record {
      got = s.bytes.items;
      room = s.room;
      most = s.most;
      failing = s.calls.failing.items;
      calls = s.calls.made;
      faults = s.calls.faults;
    } };

    ghost invariant = { λ s.
        (0 < s.most) × (length s.bytes.items ≤ s.room) × (s.room ≤ vec_capacity s.bytes) };
}

impl MemorySink {
    /// An empty sink. It takes memory for the whole room at once, and none later.
    pub fn new(
        alloc: Global,
        room: u32,
        most: u32,
        failing: Vec<u32>,
    ) -> Result<MemorySink, NoMemory>
        requires { 0 < most }
        ensures { IfOk result (λ s. s ≡ record {
          got = [];
          room = room;
          most = most;
          failing = failing.items;
          calls = 0;
          faults = 0;
        }) }
    {
        Ok(MemorySink {
            bytes: Vec::with_capacity(alloc, room as usize)?,
            room,
            most,
            calls: Calls::new(failing),
        })
    }

    /// The bytes taken so far.
    pub fn bytes(&self) -> &[u8]
        ensures { result.now ≡ self.now.got }
    {
        self.bytes.as_slice()
    }

    /// How many writes came, those that failed too. It stands still at its type's end.
    pub fn calls(&self) -> u32
        ensures { result ≡ self.now.calls }
    {
        self.calls.made()
    }

    /// How many writes have failed.
    pub fn fault_count(&self) -> u64
        ensures { result ≡ self.now.faults }
    {
        self.calls.faults()
    }

    /// How many bytes the next write takes of a chunk of this length, if it does not fail.
    fn amount(&self, due: usize) -> usize
        ensures amount { result
            ≡ min self.now.most (min due (self.now.room - length self.now.got)) }
        ensures some { (0 < due → length self.now.got < self.now.room → 0 < result) }
    {
        (self.most as usize)
            .min(due)
            .min(self.room as usize - self.bytes.len())
    }
}

impl Sink for MemorySink {
    ghost got = { λ s. Some s.got };

    ghost faults = { λ s. s.faults };

    fn write(&mut self, chunk: &[u8]) -> Result<usize, Failed>
        ensures taken { IfOk result (λ n. n ≤ length chunk.now) }
        ensures got { IfOk result
            (λ n. Gets (Some self.old.got) (take n chunk.now) (Some self.new.got)) }
        ensures some { IfOk result (λ n. 0 < length chunk.now → 0 < n) }
        ensures kept { OnErr result (Some self.new.got ≡ Some self.old.got) }
        ensures cause { OnErr result (Rose self.old.faults self.new.faults) }
        ensures raised { OnErr result (self.new.faults ≡ one_more self.old.faults) }
        ensures count { self.old.faults ≤ self.new.faults }
        ensures stands { OnOk result (self.new.faults ≡ self.old.faults) }
        ensures fails { IsErr result ↔ ((0 < length chunk.now)
            × (Contains self.old.failing (next_call self.old.calls)
            ⊎ (self.old.room ≤ length self.old.got))) }
        ensures amount { IfOk result (λ n. n
            ≡ min self.old.most (min (length chunk.now) (self.old.room - length self.old.got))) }
        ensures after { IfOk result (λ n. self.new ≡ record self.old {
          got = self.old.got ++ take n chunk.now;
          calls = next_call self.old.calls;
        }) }
        ensures after_fault { OnErr result (self.new ≡ record self.old {
          calls = next_call self.old.calls;
          faults = one_more self.old.faults;
        }) }
    {
        let fails = self.calls.begin();
        if chunk.is_empty() {
            return Ok(0);
        }
        let count = self.amount(chunk.len());
        if fails || count == 0 {
            self.calls.fail();
            return Err(Failed);
        }
        let Ok(()) = self.bytes.extend_from_slice(&chunk[..count]) else {
            unreachable!();
        };
        Ok(count)
    }
}
