//! Which of the handed numbers are links, and the row that the rows of these make.
//!
//! Where the links are those of the newest action, or one alone, nothing is sorted and no
//! row is made.
//! Else the numbers, sorted, are taken from the greatest down. One that the row covers already is
//! no link, and costs a look-up.

ghost use Rattle.std.specs.Prelude.{◌≡◌, ◌≤◌, ◌<◌, ◌-◌, ℕ, true, List, [], All, length, slice_index, IfOk, OnOk, IfSome};
ghost use Rattle.er_paths.specs.Paths.{is_among};
ghost use Rattle.er_paths.specs.links.Chains.{chain_of, place_of};
ghost use Rattle.er_paths.specs.links.Links.{links_of};
ghost use Rattle.std.specs.List.Sorted.{IsStrictlyIncreasing};
ghost use Rattle.er_clocks.specs.Sources.{AllJoin, ComeBefore, HasLinks, HasTwin, IsFoundWith, IsOnlyLink, IsTaken, ReachesToo, RepeatsNewest, TakesToo};
ghost use Rattle.er_clocks.specs.Reached.{links_taken, IsReachedBy, IsReachFrom, LinksAre};
ghost use Rattle.er_clocks.specs.Shared.{IsTakenFrom};

use crate::Clocks;
use crate::list::LinkList;
use crate::row::{Number, Row};
use crate::shared::Taken;
use er_io::NoMemory;
use std::alloc::Global;

/// The entries of an action that is to come, before it stands in a chain itself.
#[derive(Drop)]
pub(crate) enum Reach {
    /// Those of an action, with this number at its chain.
    Like(u32, u32),
    Own(Row),
}

/// The links into an action that is to come, and its entries.
#[derive(Drop)]
pub(crate) struct Sources {
    pub(crate) links: Taken<LinkList>,
    pub(crate) reach: Reach,
}

impl Clocks {
    /// The links into an action with these predecessors, and its entries.
    pub(crate) fn sources_of(&self, alloc: Global, preds: &[u32]) -> Result<Sources, NoMemory>
        requires { All (λ k. k < length self.now) preds.now }
        ensures known { IfOk result
            (λ s. IsTakenFrom (length self.now) s.links × IsReachFrom (length self.now) s.reach) }
        ensures links { IfOk result (λ s. LinksAre self.now s.links preds.now) }
        ensures reach { IfOk result (λ s. IsReachedBy self.now s.reach preds.now) }
    {
        if self.repeats_newest(preds) {
            return Ok(self.sources_of_newest());
        }
        match self.only_link(preds) {
            Some(link) => Ok(self.sources_behind(link)),
            None => self.joined_sources(alloc, preds),
        }
    }

    /// Whether the next action has the links of the newest.
    fn repeats_newest(&self, preds: &[u32]) -> bool
        requires { All (λ k. k < length self.now) preds.now }
        ensures { result ≡ true → RepeatsNewest self.now preds.now }
    {
        let count = self.numbers.len() as u32;
        count > 0 && self.repeats(preds, count - 1)
    }

    /// Whether each of these has a path to j and is not j, and all links of j are among them. They
    /// stand descending, as the links ascend.
    fn repeats(&self, preds: &[u32], j: u32) -> bool
        requires known { All (λ k. k < length self.now) preds.now }
        requires begun { j < length self.now }
        ensures before { result ≡ true → ComeBefore self.now preds.now j }
        ensures links { result ≡ true → HasLinks self.now preds.now j }
    {
        let links = self.links.list(j).numbers();
        let len = preds.len();
        let mut found = 0;
        for n in 0..len {
            let Some(more) = self.found_with(preds[len - 1 - n], links, found, j) else {
                return false;
            };
            found = more;
        }
        found == links.len()
    }

    /// How many links of j are found with k, where it is the next link or has a path to j.
    fn found_with(&self, k: u32, links: &[Number], found: usize, j: u32) -> Option<usize>
        requires known { k < length self.now }
        requires begun { j < length self.now }
        requires links { links.now ≡ links_of self.now j }
        requires within { found ≤ length links.now }
        ensures { IfSome result (λ more. IsFoundWith self.now j links.now k found more) }
    {
        if found < links.len() && u32::from(links[found]) == k {
            return Some(found + 1);
        }
        if k < j && self.has_path(k, j) {
            return Some(found);
        }
        None
    }

    /// The links of the newest action and its entries, but for itself.
    pub(crate) fn sources_of_newest(&self) -> Sources
        requires { 0 < length self.now }
        ensures newest { links_taken self.now result.links
            ≡ links_of self.now (length self.now - 1) }
        ensures known { IsTakenFrom (length self.now) result.links
            × IsReachFrom (length self.now) result.reach }
        ensures links { (p : List ℕ) → RepeatsNewest self.now p → LinksAre self.now result.links p }
        ensures reach { (p : List ℕ) → RepeatsNewest self.now p
            → IsReachedBy self.now result.reach p }
    {
        let newest = self.numbers.len() as u32 - 1;
        Sources {
            links: Taken::As(newest),
            reach: Reach::Like(newest, self.places[newest as usize]),
        }
    }

    /// The one number that all have a path to, if there is such a one.
    fn only_link(&self, preds: &[u32]) -> Option<u32>
        requires { All (λ k. k < length self.now) preds.now }
        ensures { IfSome result (λ i. IsOnlyLink self.now preds.now i) }
    {
        if preds.is_empty() {
            return None;
        }
        if preds.len() == 1 {
            return Some(preds[0]);
        }
        let link = greatest(preds);
        if self.all_join(preds, link) {
            Some(link)
        } else {
            None
        }
    }

    /// Whether each of these has a path to j.
    fn all_join(&self, numbers: &[u32], j: u32) -> bool
        requires known { All (λ k. k < length self.now) numbers.now }
        requires begun { j < length self.now }
        ensures { result ≡ true → AllJoin self.now numbers.now j }
    {
        for n in 0..numbers.len() {
            if !self.has_path(numbers[n], j) {
                return false;
            }
        }
        true
    }

    /// This one link, and the entries of it.
    fn sources_behind(&self, link: u32) -> Sources
        requires { link < length self.now }
        ensures known { IsTakenFrom (length self.now) result.links
            × IsReachFrom (length self.now) result.reach }
        ensures links { (p : List ℕ) → IsOnlyLink self.now p link
            → LinksAre self.now result.links p }
        ensures reach { (p : List ℕ) → IsOnlyLink self.now p link
            → IsReachedBy self.now result.reach p }
    {
        let number = self.places[link as usize] + 1;
        Sources {
            links: Taken::Own(LinkList::one(link as Number)),
            reach: Reach::Like(link, number),
        }
    }

    /// The links among these numbers, and the row that they make.
    fn joined_sources(&self, alloc: Global, preds: &[u32]) -> Result<Sources, NoMemory>
        requires { All (λ k. k < length self.now) preds.now }
        ensures known { IfOk result
            (λ s. IsTakenFrom (length self.now) s.links × IsReachFrom (length self.now) s.reach) }
        ensures links { IfOk result (λ s. LinksAre self.now s.links preds.now) }
        ensures reach { IfOk result (λ s. IsReachedBy self.now s.reach preds.now) }
    {
        let sorted = sorted_once(alloc, preds)?;
        let mut row = Row::new(alloc);
        let mut links = Vec::new(alloc);
        self.take_all(&sorted, &mut row, &mut links)?;
        links.reverse();
        let links = LinkList::copied(alloc, &links)?;
        let row = Row::copied(alloc, row.numbers())?;
        Ok(Sources {
            links: Taken::Own(links),
            reach: Reach::Own(row),
        })
    }

    /// Takes ascending numbers, the last first.
    fn take_all(
        &self,
        sorted: &[u32],
        row: &mut Row,
        links: &mut Vec<Number>,
    ) -> Result<(), NoMemory>
        requires known { All (λ k. k < length self.now) sorted.now }
        requires zero { row.old ≡ [] }
        requires none { links.old.items ≡ [] }
        ensures taken { OnOk result (IsTaken self.now row.new links.new.items sorted.now) }
    {
        let mut n = sorted.len();
        while n > 0 {
            n -= 1;
            self.take(sorted[n], row, links)?;
        }
        Ok(())
    }

    /// Takes one number more. Where the row covers it, it has a path to one that was
    /// taken, and is no link.
    fn take(&self, i: u32, row: &mut Row, links: &mut Vec<Number>) -> Result<(), NoMemory>
        requires known { i < length self.now }
        requires taken { All (λ k. k < length self.now) links.old.items }
        ensures known { OnOk result (All (λ k. k < length self.now) links.new.items) }
        ensures taken { OnOk result
            (TakesToo self.now i row.old links.old.items row.new links.new.items) }
    {
        if self.covers(row.numbers(), i) {
            return Ok(());
        }
        self.join(i, row, links)?;
        let Ok(()) = links.push(i as Number) else {
            return Err(NoMemory);
        };
        Ok(())
    }

    /// Raises the row by that of i. Where a link was taken with the same links as i, the row has
    /// all that but i itself.
    fn join(&self, i: u32, row: &mut Row, links: &[Number]) -> Result<(), NoMemory>
        requires known { i < length self.now }
        requires taken { All (λ k. k < length self.now) links.now }
        requires low { slice_index row.old (chain_of self.now i) ≤ place_of self.now i }
        ensures { OnOk result (ReachesToo self.now i row.old links.now row.new) }
    {
        let chain = self.numbers[i as usize];
        let number = self.places[i as usize] + 1;
        if self.has_twin(i, links) {
            row.set(chain, number)?;
            return Ok(());
        }
        row.raise(self.rows.list(i).numbers())?;
        row.set(chain, number)?;
        Ok(())
    }

    /// Whether the link taken last has the same links as i.
    fn has_twin(&self, i: u32, links: &[Number]) -> bool
        requires known { i < length self.now }
        requires taken { All (λ k. k < length self.now) links.now }
        ensures { result ≡ true → HasTwin self.now links.now i }
    {
        let count = links.len();
        if count == 0 {
            return false;
        }
        self.links.is_one(u32::from(links[count - 1]), i)
    }
}

/// The greatest of these numbers, of which there is one.
fn greatest(numbers: &[u32]) -> u32
    requires { 0 < length numbers.now }
    ensures { is_among result numbers.now ≡ true }
{
    let mut most = numbers[0];
    for n in 1..numbers.len() {
        if numbers[n] > most {
            most = numbers[n];
        }
    }
    most
}

/// The same numbers, each once, ascending.
fn sorted_once(alloc: Global, numbers: &[u32]) -> Result<Vec<u32>, NoMemory>
    ensures sorted { IfOk result (λ v. IsStrictlyIncreasing v.items) }
    ensures same { IfOk result (λ v. (i : ℕ) → is_among i v.items ≡ is_among i numbers.now) }
{
    let Ok(mut sorted) = Vec::from_slice(alloc, numbers) else {
        return Err(NoMemory);
    };
    sorted.sort_unstable();
    sorted.dedup();
    Ok(sorted)
}
