//! What is kept for each action, and what may be read.

ghost use Rattle.std.specs.Prelude.{◌≡◌, ◌≤◌, ◌<◌, [], length};
ghost use Rattle.er_paths.specs.Limits.{most_actions};
ghost use Rattle.er_paths.specs.Paths.{joins};
ghost use Rattle.er_paths.specs.links.Chains.{chains, chain_of, place_of, entry};
ghost use Rattle.er_paths.specs.links.Links.{links_of, link_count};
ghost use Rattle.er_clocks.specs.Clock.{StandsFor, Tells};
ghost use Rattle.er_clocks.specs.Rows.{is_covered};

use crate::list::LinkList;
use crate::row::{Number, Row, number_at};
use crate::shared::Shared;
use crate::{Chains, Meter, Paths};
use std::alloc::Global;
use std::marker::Model;

/// For each action its links, its chain and place there, and a row that says how many members of
/// each other chain have a path to it.
/// Many actions share a row, and those with the same links one after the other share these.
/// Callers see the lists of links, newest first.
pub struct Clocks {
    pub(crate) rows: Shared<Row>,
    pub(crate) links: Shared<LinkList>,
    pub(crate) numbers: Vec<u32>,
    pub(crate) places: Vec<u32>,
    pub(crate) chains: Chains,
    pub(crate) count: u64,
}

impl Drop for Clocks {
    fn drop(self) {
        let Clocks {
            rows: _,
            links: _,
            numbers: _,
            places: _,
            chains: _,
            count: _,
        } = self;
    }
}

impl Model for Clocks {
    ghost use Rattle.std.specs.Prelude.{ℕ, List, [], reverse};
    ghost use Rattle.er_clocks.specs.Clock.{IsClock};
    ghost use Rattle.er_clocks.specs.Shared.{shared, AreShared};

    ghost Value = { List (List ℕ) };

    ghost view = { λ c. reverse (shared [] c.links.lists.items c.links.numbers.items) };

    ghost invariant = { λ c.
        IsClock (reverse (shared [] c.links.lists.items c.links.numbers.items))
        (shared [] c.rows.lists.items c.rows.numbers.items)
        c.numbers.items c.places.items c.chains c.count
        × AreShared c.rows.lists.items c.rows.numbers.items
        × AreShared c.links.lists.items c.links.numbers.items };
}

impl Clocks {
    /// No action yet. It takes no memory.
    pub fn new(alloc: Global) -> Self
        ensures empty { length result ≡ 0 }
        ensures stands { StandsFor result [] }
    {
        Clocks {
            rows: Shared::new(alloc),
            links: Shared::new(alloc),
            numbers: Vec::new(alloc),
            places: Vec::new(alloc),
            chains: Chains::new(alloc),
            count: 0,
        }
    }

    /// How many members of the chain have a path to j.
    pub fn entry(&self, j: u32, chain: u32) -> u32
        requires { j < length self.now }
        ensures { Tells self.now (λ lists. result ≡ entry lists j chain) }
    {
        self.own_entry(j, chain)
    }

    /// The chain of j, from 0.
    pub fn chain_of(&self, j: u32) -> u32
        requires { j < length self.now }
        ensures { Tells self.now (λ lists. result ≡ chain_of lists j) }
    {
        self.numbers[j as usize]
    }

    /// The place of j in its chain, from 0.
    pub fn place_of(&self, j: u32) -> u32
        requires { j < length self.now }
        ensures { Tells self.now (λ lists. result ≡ place_of lists j) }
    {
        self.places[j as usize]
    }

    /// The sources of the links into j, ascending.
    pub fn links_of(&self, j: u32) -> &[u16]
        requires { j < length self.now }
        ensures { Tells self.now (λ lists. result.now ≡ links_of lists j) }
    {
        self.links.list(j).numbers()
    }

    pub fn chain_count(&self) -> u32
        ensures { Tells self.now (λ lists. result ≡ length (chains lists)) }
    {
        self.chains.count()
    }

    /// The number of all links.
    pub fn link_count(&self) -> u64
        ensures { Tells self.now (λ lists. result ≡ link_count lists) }
    {
        self.count
    }

    /// Whether a path leads from i to j. It is asked with no meter, and counts no comparison.
    pub fn joined(&self, i: u32, j: u32) -> bool
        ensures { Tells self.now (λ lists. result ≡ joins lists i j) }
    {
        if i > j {
            return false;
        }
        if j >= self.len() {
            return false;
        }
        self.has_path(i, j)
    }

    /// The entry over the kept links. The row of j is not asked for its own chain.
    pub(crate) fn own_entry(&self, j: u32, chain: u32) -> u32
        requires { j < length self.now }
        ensures { result ≡ entry self.now j chain }
    {
        if chain == self.numbers[j as usize] {
            let place = self.places[j as usize];
            place + 1
        } else {
            number_at(self.rows.list(j).numbers(), chain)
        }
    }

    /// Whether the row has as many members of the chain of i as come before i, and one more.
    pub(crate) fn covers(&self, row: &[Number], i: u32) -> bool
        requires { i < length self.now }
        ensures covered { result ≡ is_covered self.now row.now i }
        ensures few { length self.now ≤ most_actions }
    {
        self.places[i as usize] < number_at(row, self.numbers[i as usize])
    }

    /// The same over the kept links, of two actions that have begun.
    pub(crate) fn has_path(&self, i: u32, j: u32) -> bool
        requires first { i < length self.now }
        requires second { j < length self.now }
        ensures { result ≡ joins self.now i j }
    {
        self.places[i as usize] < self.own_entry(j, self.numbers[i as usize])
    }
}

impl Paths for Clocks {
    ghost use Rattle.std.specs.Prelude.{length};
    ghost use Rattle.er_paths.specs.Paths.{joins as joins_over};

    ghost actions = { λ c. length c };

    ghost joins = { λ c i j. joins_over c i j };

    fn len(&self) -> u32 {
        self.numbers.len() as u32
    }

    fn before(&self, i: u32, j: u32, meter: &mut Meter) -> bool {
        meter.rise(1);
        self.has_path(i, j)
    }

    fn first_apart(&self, firsts: &[u32], j: u32, meter: &mut Meter) -> usize {
        let n = self.first_pathless(firsts, j);
        meter.rise((n + 1).min(firsts.len()) as u64);
        n
    }
}
