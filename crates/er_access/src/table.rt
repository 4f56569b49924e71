//! The kept accesses, by location.

ghost use Rattle.std.specs.Prelude.{All, ◌≡◌, ◌<◌, ◌≤◌, Err, [], length, Some, slice_get, OnOk, OnErr, IfOk, IfSome, is_some};
ghost use Rattle.std.specs.List.{list_any};
ghost use Rattle.er_access.specs.Kept.{IsFull, access_of, candidates_of, most_accesses, is_new, same_loc, with_access};
ghost use Rattle.er_access.specs.Numbers.{IsKeptAt, access_at, accesses_of, locations_of, number_of, rows_of};
ghost use Rattle.er_access.specs.Table.{AreDistinct, AreInOrder, IsRising};

use crate::add::{add_known, add_new};
use crate::place::Place;
use crate::{Access, AddFault};
use er_trace::record::{Loc, Mode};
use indexmap::IndexSet;
use std::alloc::Global;
use std::marker::Model;

/// The kept accesses, the locations that they use, what each location has seen, and the number of
/// candidate pairs.
/// Callers see the list of accesses with their locations.
pub struct Table {
    keys: IndexSet<Loc>,
    places: Vec<Place>,
    accesses: Vec<Access>,
    pairs: u64,
    /// The number of the location that was asked for last, which is often asked for next.
    last: usize,
}

impl Drop for Table {
    fn drop(self) {
        let Table {
            keys: _,
            places: _,
            accesses: _,
            pairs: _,
            last: _,
        } = self;
    }
}

/// The number of a location, if it has one. The location of the number `last` is tried first,
/// without a hash: a script reads a variable again and again.
fn find(keys: &IndexSet<Loc>, last: usize, loc: &Loc) -> Option<usize>
    requires distinct { AreDistinct keys.now.keys }
    ensures found { IfSome result (λ k. k ≡ number_of loc.now keys.now.keys) }
    ensures known { is_some result ≡ list_any (same_loc loc.now) keys.now.keys }
    ensures within { IfSome result (λ k. k < length keys.now.keys) }
{
    if let Some(key) = keys.as_slice().get(last) {
        if key == loc {
            return Some(last);
        }
    }
    keys.get_index_of(loc)
}

impl Model for Table {
    ghost use Rattle.std.specs.Prelude.{List};
    ghost use Rattle.er_access.specs.Kept.{Kept};
    ghost use Rattle.er_access.specs.Table.{IsTable, kept_by};

    ghost Value = { List Kept };

    ghost view = { λ t. kept_by t.keys.keys t.accesses.items };

    ghost invariant = { λ t. IsTable t.keys.keys t.places.items t.accesses.items t.pairs };
}

impl Table {
    /// No access yet. It takes no memory.
    pub fn new(alloc: Global) -> Self
        ensures { result ≡ [] }
    {
        Table {
            keys: IndexSet::new(alloc),
            places: Vec::new(alloc),
            accesses: Vec::new(alloc),
            pairs: 0,
            last: 0,
        }
    }

    /// Adds an access, unless it repeats one.
    ///
    /// It takes constant time. The location is copied where it is new.
    pub fn add(&mut self, line: u32, action: u32, mode: Mode, loc: &Loc) -> Result<bool, AddFault>
        requires line { All (λ x. x.line < line) self.old }
        requires action { All (λ x. x.action ≤ action) self.old }
        ensures kept { IfOk result (λ kept. kept
            ≡ is_new (access_of line action mode loc.now) self.old) }
        ensures accesses { OnOk result (self.new
            ≡ with_access (access_of line action mode loc.now) self.old) }
        ensures unchanged { OnErr result (self.new ≡ self.old) }
        ensures full { result ≡ Err AddFault.Full
            → IsFull (access_of line action mode loc.now) self.old }
        ensures exact { IsFull (access_of line action mode loc.now) self.old
            → result ≡ Err AddFault.Full }
    {
        let Some(k) = find(&self.keys, self.last, loc) else {
            let next = self.places.len();
            self.last = next;
            let access = Access {
                line,
                action,
                mode,
                location: next as u32,
            };
            return add_new(
                &mut self.keys,
                &mut self.places,
                &mut self.accesses,
                access,
                loc,
            );
        };
        self.last = k;
        let access = Access {
            line,
            action,
            mode,
            location: k as u32,
        };
        add_known(
            &mut self.places,
            &mut self.accesses,
            &mut self.pairs,
            access,
        )
    }

    /// How many accesses are kept.
    pub fn len(&self) -> u32
        ensures count { result ≡ length self.now }
        ensures few { result ≤ most_accesses }
    {
        self.accesses.len() as u32
    }

    /// The access of a number.
    pub fn access(&self, n: u32) -> Access
        requires { n < length self.now }
        ensures access { result ≡ access_at (accesses_of self.now) n }
        ensures known { result.location < length (locations_of self.now) }
        ensures kept { IsKeptAt self.now n result }
    {
        self.accesses[n as usize]
    }

    /// How many locations there are.
    pub fn locations(&self) -> u32
        ensures { result ≡ length (locations_of self.now) }
    {
        self.places.len() as u32
    }

    /// The location of a number.
    pub fn location(&self, k: u32) -> &Loc
        requires { k < length (locations_of self.now) }
        ensures { slice_get (locations_of self.now) k ≡ Some result.now }
    {
        &self.keys.as_slice()[k as usize]
    }

    /// The numbers of the accesses of a location, ascending. No later access is of a lesser action,
    /// and none repeats another.
    pub fn rows(&self, k: u32) -> &[u32]
        requires { k < length (locations_of self.now) }
        ensures rows { result.now ≡ rows_of (accesses_of self.now) k }
        ensures ascending { IsRising result.now }
        ensures ordered { AreInOrder (accesses_of self.now) }
    {
        self.places[k as usize].rows()
    }

    /// How many candidate pairs there are.
    pub fn pairs(&self) -> u64
        ensures { result ≡ length (candidates_of self.now) }
    {
        self.pairs
    }
}
