//! One action more.

ghost use Rattle.std.specs.Prelude.{◌≡◌, ◌+◌, ◌≤◌, ◌<◌, ◌∷◌, [], All, length, slice_index, IfOk, OnOk, OnErr};
ghost use Rattle.std.specs.Vec.{vec_len, vec_capacity};
ghost use Rattle.er_paths.specs.Limits.{most_actions};
ghost use Rattle.er_clocks.specs.Clock.{StandsForMore, StandsForAgain};
ghost use Rattle.er_clocks.specs.Reached.{links_taken, AreMade, IsReachFrom, IsHeldOff, IsLikeOff};
ghost use Rattle.er_clocks.specs.Shared.{shared, taken, AreShared, IsTakenFrom};

use crate::list::LinkList;
use crate::row::{Row, number_at};
use crate::shared::{Shared, Taken, put_number};
use crate::sources::{Reach, Sources};
use crate::{Chains, Clocks};
use er_io::NoMemory;
use std::alloc::Global;

impl Clocks {
    /// Adds the next action, to which an edge leads from each of these, and answers its number.
    ///
    /// Where the links are those of the newest action, or one alone, each number costs one look-up,
    /// and a row is written only where the action takes another chain than its link.
    /// Else a number that a greater one covers costs one look-up, and so does a link whose own
    /// links are those of the next greater; each other link costs one step a chain.
    pub fn push(&mut self, preds: &[u32]) -> Result<u32, NoMemory>
        requires known { All (λ k. k < length self.old) preds.now }
        requires room { length self.old < most_actions }
        ensures number { IfOk result (λ n. n ≡ length self.old) }
        ensures pushed { OnOk result (StandsForMore self.old preds.now self.new) }
        ensures grown { OnOk result (length self.new ≡ length self.old + 1) }
        ensures kept { OnErr result (self.new ≡ self.old) }
    {
        let alloc = *self.numbers.allocator();
        let sources = self.sources_of(alloc, preds)?;
        self.put(alloc, sources)
    }

    /// Adds the next action, to which edges lead from where they lead to the newest, and answers
    /// its number. That costs a few look-ups, however many they are.
    pub fn push_again(&mut self) -> Result<u32, NoMemory>
        requires begun { 0 < length self.old }
        requires room { length self.old < most_actions }
        ensures number { IfOk result (λ n. n ≡ length self.old) }
        ensures pushed { OnOk result (StandsForAgain self.old self.new) }
        ensures grown { OnOk result (length self.new ≡ length self.old + 1) }
        ensures kept { OnErr result (self.new ≡ self.old) }
    {
        let alloc = *self.numbers.allocator();
        let sources = self.sources_of_newest();
        self.put(alloc, sources)
    }

    /// Adds the next action, with these links and entries.
    fn put(&mut self, alloc: Global, sources: Sources) -> Result<u32, NoMemory>
        requires room { length self.old < most_actions }
        requires links { IsTakenFrom (length self.old) sources.links }
        requires reach { IsReachFrom (length self.old) sources.reach }
        requires made { AreMade self.old sources.links sources.reach }
        ensures number { IfOk result (λ n. n ≡ length self.old) }
        ensures put { OnOk result
            (self.new ≡ links_taken self.old sources.links ∷ self.old) }
        ensures kept { OnErr result (self.new ≡ self.old) }
    {
        let number = self.numbers.len() as u32;
        let chain = self.fit(&sources.reach);
        let place = place_at(&self.chains, chain);
        let row = row_for(&self.rows, &self.numbers, alloc, sources.reach, chain)?;
        let more = count_of(&self.links, &sources.links);
        self.rows.make_room()?;
        self.links.make_room()?;
        make_room_for_numbers(&mut self.numbers, &mut self.places)?;
        self.chains.append(chain)?;
        self.count += more as u64;
        self.rows.put(row);
        self.links.put(sources.links);
        put_number(&mut self.numbers, chain);
        put_number(&mut self.places, place);
        Ok(number)
    }
}

/// The place of the chain's next member.
fn place_at(chains: &Chains, chain: u32) -> u32
    requires { chain ≤ length chains.now }
    ensures { result ≡ slice_index chains.now chain }
{
    if chain < chains.count() {
        chains.length(chain)
    } else {
        0
    }
}

/// The row with these entries, but at the chain that the action itself takes: where it may, that of
/// an earlier action.
fn row_for(
    rows: &Shared<Row>,
    numbers: &[u32],
    alloc: Global,
    reach: Reach,
    chain: u32,
) -> Result<Taken<Row>, NoMemory>
    requires shared { AreShared rows.now.lists.items rows.now.numbers.items }
    requires long { length numbers.now ≡ length rows.now.numbers.items }
    requires known { IsReachFrom (length numbers.now) reach }
    ensures known { IfOk result (λ row. IsTakenFrom (length numbers.now) row) }
    ensures held { IfOk result
        (λ row. IsHeldOff chain (shared [] rows.now.lists.items rows.now.numbers.items)
        numbers.now reach row) }
{
    match reach {
        Reach::Like(j, number) => row_like(rows, numbers, alloc, j, number, chain),
        Reach::Own(row) => Ok(Taken::Own(row)),
    }
}

/// The row of j with this number at its chain.
fn row_like(
    rows: &Shared<Row>,
    numbers: &[u32],
    alloc: Global,
    j: u32,
    number: u32,
    chain: u32,
) -> Result<Taken<Row>, NoMemory>
    requires shared { AreShared rows.now.lists.items rows.now.numbers.items }
    requires long { length numbers.now ≡ length rows.now.numbers.items }
    requires known { j < length numbers.now }
    requires few { number ≤ most_actions }
    ensures known { IfOk result (λ row. IsTakenFrom (length numbers.now) row) }
    ensures held { IfOk result
        (λ row. IsLikeOff chain (shared [] rows.now.lists.items rows.now.numbers.items)
        numbers.now j number row) }
{
    let own = numbers[j as usize];
    if own == chain {
        return Ok(Taken::As(j));
    }
    if number_at(rows.list(j).numbers(), own) == number {
        return Ok(Taken::As(j));
    }
    let row = Row::changed(alloc, rows.list(j).numbers(), own, number)?;
    Ok(Taken::Own(row))
}

/// How many links these are.
fn count_of(links: &Shared<LinkList>, one: &Taken<LinkList>) -> usize
    requires shared { AreShared links.now.lists.items links.now.numbers.items }
    requires known { IsTakenFrom (length links.now.numbers.items) one.now }
    ensures { result
        ≡ length (taken [] (shared [] links.now.lists.items links.now.numbers.items) one.now) }
{
    match one {
        Taken::As(j) => links.list(*j).numbers().len(),
        Taken::Own(list) => list.numbers().len(),
    }
}

fn make_room_for_numbers(numbers: &mut Vec<u32>, places: &mut Vec<u32>) -> Result<(), NoMemory>
    ensures numbers { numbers.new.items ≡ numbers.old.items }
    ensures places { places.new.items ≡ places.old.items }
    ensures numbers_room { OnOk result (vec_len numbers.new < vec_capacity numbers.new) }
    ensures places_room { OnOk result (vec_len places.new < vec_capacity places.new) }
{
    if numbers.reserve(1).is_err() {
        return Err(NoMemory);
    }
    if places.reserve(1).is_err() {
        return Err(NoMemory);
    }
    Ok(())
}
