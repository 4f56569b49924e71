//! Values by number: those of small numbers in a vector, one beside the other, the others
//! in a hash table.
//!
//! A contract sees what is found under each number (`found` of `specs/Numbers.antt`). Nothing ties
//! the vector to the table: what stands in the vector is found first, and a value that went into
//! the table while the vector was shorter is found there.
#![tactic(auto)]

ghost use Rattle.std.specs.Prelude.{◌≡◌, ℕ, ◌+◌, ◌<◌, ◌≤◌, ◌==◌, if◌then◌else◌, Some, None, OnOk, is_some, length, get_or, nat_eq, vec_len, vec_capacity};
ghost use Rattle.indexmap.specs.IndexMap.{get};
ghost use Rattle.er_numbers.specs.Numbers.{found, HasRoomUnder};

use er_io::NoMemory;
use indexmap::IndexMap;
use std::alloc::Global;

/// So many places the vector may have, however few values were put.
const FIRST_PLACES: usize = 64;
/// Beyond these it has at most so many for each value, with the one that comes: numbers that rise
/// by as much stand in the vector.
const PLACES_OF_A_VALUE: usize = 4;

/// Values by number.
pub struct Numbers<V> {
    /// The values of small numbers, each at the place of its number.
    pub(crate) dense: Vec<Option<V>>,
    /// The values of other numbers.
    pub(crate) sparse: IndexMap<u32, V>,
    /// How many values were put.
    pub(crate) count: usize,
}

impl<V: Drop> Drop for Numbers<V> {
    fn drop(self) {
        let Numbers {
            dense: _,
            sparse: _,
            count: _,
        } = self;
    }
}

impl<V: Copy + Drop> Numbers<V> {
    /// Nothing. It takes no memory.
    pub fn new(alloc: Global) -> Self
        ensures { (k : ℕ) → found result k ≡ None }
    {
        Numbers {
            dense: Vec::new(alloc),
            sparse: IndexMap::new(alloc),
            count: 0,
        }
    }

    /// What stands under the number.
    pub fn find(&self, number: u32) -> Option<V>
        ensures { result ≡ found self.now number }
    {
        match in_vector(self.dense.as_slice(), number as usize) {
            Some(value) => Some(value),
            None => self.in_table(number),
        }
    }

    /// What stands in the table under the number. An empty table is not asked.
    fn in_table(&self, number: u32) -> Option<V>
        ensures { result ≡ get nat_eq self.now.sparse number }
    {
        if self.sparse.is_empty() {
            return None;
        }
        self.sparse.get(&number).copied()
    }

    /// Whether something does.
    pub fn has(&self, number: u32) -> bool
        ensures { result ≡ is_some (found self.now number) }
    {
        self.find(number).is_some()
    }

    /// How many values were put.
    pub fn count(&self) -> usize
        ensures { result ≡ self.now.count }
    {
        self.count
    }

    /// Makes room for a value under the number.
    pub fn make_room(&mut self, number: u32) -> Result<(), NoMemory>
        ensures kept { (k : ℕ) → found self.new k ≡ found self.old k }
        ensures count { self.new.count ≡ self.old.count }
        ensures room { OnOk result (HasRoomUnder self.new number) }
    {
        if self.count == usize::MAX {
            return Err(NoMemory);
        }
        let place = number as usize;
        let len = self.dense.len();
        if place < len {
            return Ok(());
        }
        if self.is_small(place) {
            let missing = place - len + 1;
            self.dense.reserve(missing)?;
            fill(&mut self.dense, missing);
            return Ok(());
        }
        self.sparse.reserve(1)?;
        Ok(())
    }

    /// Puts a value under the number, in place of what stood there. All others stay.
    pub fn put(&mut self, number: u32, value: V)
        requires room { HasRoomUnder self.old number }
        ensures found { (k : ℕ)
            → found self.new k ≡ (if number == k then Some value else found self.old k) }
        ensures count { self.new.count ≡ self.old.count + 1 }
    {
        self.count += 1;
        let place = number as usize;
        if place < self.dense.len() {
            self.dense[place] = Some(value);
            return;
        }
        let Ok(_) = self.sparse.insert(number, value) else {
            unreachable!()
        };
    }

    /// Whether the vector may grow to a place: always to its first places, else to four for each
    /// value, with the one that comes.
    fn is_small(&self, place: usize) -> bool {
        place < FIRST_PLACES || place / PLACES_OF_A_VALUE <= self.count
    }
}

/// What stands in the vector at a place.
fn in_vector<V: Copy + Drop>(dense: &[Option<V>], place: usize) -> Option<V>
    ensures { result ≡ get_or dense.now place None }
{
    if place < dense.len() {
        return dense[place];
    }
    None
}

/// Puts so many empty places behind the last one.
fn fill<V: Copy + Drop>(dense: &mut Vec<Option<V>>, missing: usize)
    requires room { vec_len dense.old + missing ≤ vec_capacity dense.old }
    ensures kept { (k : ℕ) → get_or dense.new.items k None ≡ get_or dense.old.items k None }
    ensures long { length dense.new.items ≡ length dense.old.items + missing }
{
    for _ in 0..missing {
        dense.push_reserved(None);
    }
}
