//! The first actions of the groups found so far, each asked once.

ghost use Rattle.std.specs.Prelude.{◌≡◌, ◌+◌, ◌<◌, ◌≤◌, ◌^◌, ◌++◌, [], ◌∷◌, length, All, OnOk};
ghost use Rattle.er_paths.specs.Paths.{joins};
ghost use Rattle.er_cover.specs.Groups.{most_classes};
ghost use Rattle.er_cover.specs.Passes.{AreHeads, IsKnown, ends_with, groups_at, seconds_from, seconds_of, start_of};

use crate::Class;
use er_clocks::{Clocks, Meter};
use er_io::NoMemory;
use std::alloc::Global;

/// The first actions of the groups found so far, each once, and where the groups of each
/// begin among them.
///
/// Classes come by falling first action, so that groups of one first action stand side by side.
#[derive(Drop)]
pub(crate) struct Heads {
    pub(crate) firsts: Vec<u32>,
    pub(crate) starts: Vec<u32>,
}

impl Heads {
    pub(crate) fn new(alloc: Global) -> Self
        ensures { AreHeads [] result }
    {
        Heads {
            firsts: Vec::new(alloc),
            starts: Vec::new(alloc),
        }
    }

    /// Takes in the first action of a class that goes behind these groups, unless the
    /// last group has it.
    pub(crate) fn add(&mut self, found: &[Class], class: &Class) -> Result<(), NoMemory>
        requires heads { AreHeads found.now self.old }
        requires few { length found.now ≤ most_classes }
        ensures { OnOk result (AreHeads (found.now ++ class.now ∷ []) self.new) }
    {
        if self.ends_with(class.first) {
            return Ok(());
        }
        let Ok(()) = self.firsts.push(class.first) else {
            return Err(NoMemory);
        };
        let Ok(()) = self.starts.push(found.len() as u32) else {
            return Err(NoMemory);
        };
        Ok(())
    }

    /// Whether this is the first action of the last group.
    fn ends_with(&self, first: u32) -> bool
        ensures { result ≡ ends_with self.now first }
    {
        match self.firsts.last() {
            Some(last) => *last == first,
            None => false,
        }
    }

    /// The groups of the first action at this place.
    fn groups<'a>(&self, found: &'a [Class], n: usize) -> &'a [Class]
        requires heads { AreHeads found.now self.now }
        requires within { n < length self.now.firsts.items }
        ensures { result.now ≡ groups_at found.now self.now n }
    {
        let start = self.start(found, n);
        let end = self.start(found, n + 1);
        &found[start..end]
    }

    /// Where the groups of the first action at this place begin, or behind the last of them the
    /// number of groups.
    fn start(&self, found: &[Class], n: usize) -> usize
        requires heads { AreHeads found.now self.now }
        requires place { n ≤ length self.now.firsts.items }
        ensures start { result ≡ start_of (length found.now) self.now n }
        ensures within { result ≤ length found.now }
    {
        match self.starts.get(n) {
            Some(start) => *start as usize,
            None => found.len(),
        }
    }
}

/// Adds the second actions of those groups to whose first action a path leads.
///
/// One comparison serves all groups of one first action.
pub(crate) fn gather(
    seconds: &mut Vec<u32>,
    found: &[Class],
    heads: &Heads,
    first: u32,
    clocks: &Clocks,
    tests: &mut Meter,
) -> Result<(), NoMemory>
    requires known { All (IsKnown (length clocks.now)) found.now }
    requires heads { AreHeads found.now heads.now }
    requires first { first < length clocks.now }
    requires none { seconds.old.items ≡ [] }
    requires room { tests.old + length found.now < 2 ^ 62 }
    ensures seconds { OnOk result
        (seconds.new.items ≡ seconds_from (joins clocks.now) first found.now) }
    ensures bound { tests.new ≤ tests.old + length found.now }
    ensures rises { tests.old ≤ tests.new }
{
    let firsts = heads.firsts.as_slice();
    let mut from = 0;
    while from < firsts.len() {
        let at = from + clocks.first_led(first, &firsts[from..], tests);
        if at == firsts.len() {
            return Ok(());
        }
        add_seconds(seconds, heads.groups(found, at))?;
        from = at + 1;
    }
    Ok(())
}

/// Adds the second actions of these groups.
fn add_seconds(seconds: &mut Vec<u32>, groups: &[Class]) -> Result<(), NoMemory>
    ensures { OnOk result (seconds.new.items ≡ seconds.old.items ++ seconds_of groups.now) }
{
    for group in groups {
        let Ok(()) = seconds.push(group.second) else {
            return Err(NoMemory);
        };
    }
    Ok(())
}
