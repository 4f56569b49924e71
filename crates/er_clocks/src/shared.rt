//! One thing for each action, a row or a list of links. Actions with the same may share it.

ghost use Rattle.std.specs.Prelude.{◌≡◌, ◌<◌, ◌++◌, ◌∷◌, [], true, length, slice_index_or, OnOk};
ghost use Rattle.std.specs.Vec.{vec_len, vec_capacity};
ghost use Rattle.er_paths.specs.Limits.{most_actions};
ghost use Rattle.er_clocks.specs.Shared.{shared, taken, AreShared, IsTakenFrom};

use er_io::NoMemory;
use std::alloc::Global;

/// The lists, and for each action the number of its own.
pub(crate) struct Shared<T> {
    pub(crate) lists: Vec<T>,
    pub(crate) numbers: Vec<u32>,
}

impl<T: Drop> Drop for Shared<T> {
    fn drop(self) {
        let Shared {
            lists: _,
            numbers: _,
        } = self;
    }
}

/// The list of an action that is to come: that of an earlier one, or one of its own.
#[derive(Drop)]
pub(crate) enum Taken<T> {
    As(u32),
    Own(T),
}

impl<T> Shared<T> {
    /// It takes no memory.
    pub(crate) fn new(alloc: Global) -> Self
        ensures lists { result.lists.items ≡ [] }
        ensures numbers { result.numbers.items ≡ [] }
    {
        Shared {
            lists: Vec::new(alloc),
            numbers: Vec::new(alloc),
        }
    }

    /// The list of j.
    #[tactic(auto, using(crate::proofs::SharedLemmas::listed))]
    pub(crate) fn list(&self, j: u32) -> &T
        requires shared { AreShared self.now.lists.items self.now.numbers.items }
        requires known { j < length self.now.numbers.items }
        ensures { (d : T)
            → result.now
            ≡ slice_index_or (shared d self.now.lists.items self.now.numbers.items) j d }
    {
        &self.lists[self.numbers[j as usize] as usize]
    }

    /// Whether both have one list.
    pub(crate) fn is_one(&self, i: u32, j: u32) -> bool
        requires first { i < length self.now.numbers.items }
        requires second { j < length self.now.numbers.items }
        ensures { result ≡ true → (d : T)
            → slice_index_or (shared d self.now.lists.items self.now.numbers.items) i d
            ≡ slice_index_or (shared d self.now.lists.items self.now.numbers.items) j d }
    {
        self.numbers[i as usize] == self.numbers[j as usize]
    }

    /// Makes room for one action more.
    pub(crate) fn make_room(&mut self) -> Result<(), NoMemory>
        ensures lists { self.new.lists.items ≡ self.old.lists.items }
        ensures numbers { self.new.numbers.items ≡ self.old.numbers.items }
        ensures lists_room { OnOk result (vec_len self.new.lists < vec_capacity self.new.lists) }
        ensures numbers_room { OnOk result
            (vec_len self.new.numbers < vec_capacity self.new.numbers) }
    {
        if self.lists.reserve(1).is_err() {
            return Err(NoMemory);
        }
        if self.numbers.reserve(1).is_err() {
            return Err(NoMemory);
        }
        Ok(())
    }

    /// Adds the list of one action more, for which there is room.
    pub(crate) fn put(&mut self, one: Taken<T>)
        requires lists_room { vec_len self.old.lists < vec_capacity self.old.lists }
        requires numbers_room { vec_len self.old.numbers < vec_capacity self.old.numbers }
        requires shared { AreShared self.old.lists.items self.old.numbers.items }
        requires few { length self.old.numbers.items < most_actions }
        requires known { IsTakenFrom (length self.old.numbers.items) one }
        ensures shared { AreShared self.new.lists.items self.new.numbers.items }
        ensures more { (d : T) → shared d self.new.lists.items self.new.numbers.items
            ≡ shared d self.old.lists.items self.old.numbers.items
            ++ taken d (shared d self.old.lists.items self.old.numbers.items) one ∷ [] }
    {
        match one {
            Taken::As(j) => {
                let number = self.numbers[j as usize];
                put_number(&mut self.numbers, number);
            }
            Taken::Own(list) => {
                let number = self.lists.len() as u32;
                self.lists.push_reserved(list);
                put_number(&mut self.numbers, number);
            }
        }
    }
}

pub(crate) fn put_number(numbers: &mut Vec<u32>, number: u32)
    requires { vec_len numbers.old < vec_capacity numbers.old }
    ensures { numbers.new.items ≡ numbers.old.items ++ number ∷ [] }
{
    numbers.push_reserved(number);
}
