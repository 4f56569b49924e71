//! The accesses of one location, by what is asked of them.

ghost use Rattle.std.specs.Prelude.{◌≡◌, ◌<◌, ◌≤◌, List, ℕ, [], ◌∷◌, ◌++◌, length, OnOk};
ghost use Rattle.er_access.specs.Numbers.{accesses_of};
ghost use Rattle.er_races.specs.Fronts as spec;
ghost use Rattle.er_races.specs.Fronts.{AreColumns};

use er_access::Table;
use er_access::access::is_write;
use er_io::NoMemory;
use er_trace::record::Mode;
use std::alloc::Global;

/// Of the accesses of one location that were gone through the actions, and once more of those that
/// write the numbers and the actions.
#[derive(Drop)]
pub(crate) struct Columns {
    pub(crate) actions: Vec<u32>,
    pub(crate) writes: Vec<u32>,
    pub(crate) write_actions: Vec<u32>,
}

/// Some accesses, by number, and beside them their actions.
#[derive(Clone, Copy)]
pub(crate) struct Column<'a> {
    pub(crate) numbers: &'a [u32],
    pub(crate) actions: &'a [u32],
}

impl Columns {
    /// It takes no memory.
    pub(crate) fn new(alloc: Global) -> Self {
        Columns {
            actions: Vec::new(alloc),
            writes: Vec::new(alloc),
            write_actions: Vec::new(alloc),
        }
    }

    /// No access yet.
    pub(crate) fn clear(&mut self)
        ensures actions { self.new.actions.items ≡ [] }
        ensures writes { self.new.writes.items ≡ [] }
        ensures write_actions { self.new.write_actions.items ≡ [] }
    {
        self.actions.clear();
        self.writes.clear();
        self.write_actions.clear();
    }

    /// One access more.
    pub(crate) fn note(&mut self, table: &Table, n: u32) -> Result<(), NoMemory>
        requires { n < length table.now }
        ensures { (rows : List ℕ) → AreColumns (accesses_of table.now) rows self.old
            → OnOk result (AreColumns (accesses_of table.now) (rows ++ n ∷ []) self.new) }
    {
        let access = table.access(n);
        if is_write(access.mode) {
            put(&mut self.writes, n)?;
            put(&mut self.write_actions, access.action)?;
        }
        put(&mut self.actions, access.action)
    }

    /// Those of these accesses with which one of this mode can race: all, or those that write.
    pub(crate) fn partners<'a>(&'a self, rows: &'a [u32], mode: Mode) -> Column<'a>
        ensures numbers { result.numbers.now ≡ spec.partners mode rows.now self.now.writes.items }
        ensures actions { result.actions.now
            ≡ spec.partners mode self.now.actions.items self.now.write_actions.items }
    {
        if is_write(mode) {
            Column {
                numbers: rows,
                actions: self.actions.as_slice(),
            }
        } else {
            Column {
                numbers: self.writes.as_slice(),
                actions: self.write_actions.as_slice(),
            }
        }
    }
}

fn put(numbers: &mut Vec<u32>, n: u32) -> Result<(), NoMemory>
    ensures { OnOk result (numbers.new.items ≡ numbers.old.items ++ n ∷ []) }
{
    let Ok(()) = numbers.push(n) else {
        return Err(NoMemory);
    };
    Ok(())
}

/// How many there are, without the last where it is this one.
pub(crate) fn front_len(actions: &[u32], action: u32) -> usize
    ensures len { result ≡ spec.front_len actions.now action }
    ensures within { result ≤ length actions.now }
{
    if actions.is_empty() {
        return 0;
    }
    let last = actions.len() - 1;
    if actions[last] == action {
        last
    } else {
        actions.len()
    }
}
