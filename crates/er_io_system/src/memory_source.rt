//! A source over bytes in memory, whose calls fail where they are told to.

ghost use Rattle.std.specs.Prelude.{◌≡◌, ◌↔◌, ◌<◌, ◌≤◌, ℕ, min, length, take, drop, Contains, Some, IfOk, OnOk, OnErr, IsErr};
ghost use Rattle.er_io.specs.Ends.{Gives, IsSpent, Rose, one_more};
ghost use Rattle.er_io_system.specs.Memory.{next_call};

use crate::calls::Calls;
use er_io::{Failed, Source};
use std::marker::Model;

/// Gives the bytes that it was made with, and no more than `most` of them a call.
/// Its calls are counted from 1, and those whose numbers it was made with fail.
#[derive(Drop)]
pub struct MemorySource {
    bytes: Vec<u8>,
    given: usize,
    most: u32,
    calls: Calls,
}

impl Model for MemorySource {
    ghost use Rattle.std.specs.Prelude.{◌<◌, ◌≤◌, drop, length};
    ghost use Rattle.er_io_system.specs.Memory.{Input};

    ghost Value = { Input };

    ghost view = { λ s. record {
      left = drop s.given s.bytes.items;
      most = s.most;
      failing = s.calls.failing.items;
      calls = s.calls.made;
      faults = s.calls.faults;
    } };

    ghost invariant = { λ s. (0 < s.most) × (s.given ≤ length s.bytes.items) };
}

impl MemorySource {
    /// A source of these bytes.
    pub fn new(bytes: Vec<u8>, most: u32, failing: Vec<u32>) -> MemorySource
        requires { 0 < most }
        ensures { result ≡ record {
          left = bytes.items;
          most = most;
          failing = failing.items;
          calls = 0;
          faults = 0;
        } }
    {
        MemorySource {
            bytes,
            given: 0,
            most,
            calls: Calls::new(failing),
        }
    }

    /// How many reads came, those that failed too. It stands still at its type's end.
    pub fn calls(&self) -> u32
        ensures { result ≡ self.now.calls }
    {
        self.calls.made()
    }

    /// How many reads have failed.
    pub fn fault_count(&self) -> u64
        ensures { result ≡ self.now.faults }
    {
        self.calls.faults()
    }

    /// How many bytes the next read places in a buffer of this length, if it does not fail.
    fn amount(&self, room: usize) -> usize
        ensures amount { result ≡ min self.now.most (min room (length self.now.left)) }
    {
        (self.most as usize)
            .min(room)
            .min(self.bytes.len() - self.given)
    }
}

impl Source for MemorySource {
    ghost left = { λ s. Some s.left };

    ghost faults = { λ s. s.faults };

    fn read(&mut self, buf: &mut [u8]) -> Result<usize, Failed>
        ensures placed { IfOk result (λ n. n ≤ length buf.new) }
        ensures given { IfOk result
            (λ n. Gives (Some self.old.left) (take n buf.new) (Some self.new.left)) }
        ensures end { IfOk result (λ n. n ≡ 0 → 0 < length buf.new → IsSpent (Some self.new.left)) }
        ensures kept { OnErr result (Some self.new.left ≡ Some self.old.left) }
        ensures cause { OnErr result (Rose self.old.faults self.new.faults) }
        ensures raised { OnErr result (self.new.faults ≡ one_more self.old.faults) }
        ensures count { self.old.faults ≤ self.new.faults }
        ensures stands { OnOk result (self.new.faults ≡ self.old.faults) }
        ensures fails { IsErr result ↔ Contains self.old.failing (next_call self.old.calls) }
        ensures amount { IfOk result
            (λ n. n ≡ min self.old.most (min (length buf.old) (length self.old.left))) }
        ensures rest { IfOk result (λ n. drop n buf.new ≡ drop n buf.old) }
        ensures after { IfOk result (λ n. self.new
            ≡ record self.old { left = drop n self.old.left; calls = next_call self.old.calls }) }
        ensures untouched { OnErr result (buf.new ≡ buf.old) }
        ensures after_fault { OnErr result (self.new ≡ record self.old {
          calls = next_call self.old.calls;
          faults = one_more self.old.faults;
        }) }
    {
        if self.calls.begin() {
            self.calls.fail();
            return Err(Failed);
        }
        let count = self.amount(buf.len());
        let end = self.given + count;
        buf[..count].copy_from_slice(&self.bytes[self.given..end]);
        self.given = end;
        Ok(count)
    }
}
