//! Many actions asked at once.
//!
//! Each loop is a function that is not inlined: in its callers the registers would not
//! reach for it.

ghost use Rattle.std.specs.Prelude.{◌≡◌, ◌+◌, ◌<◌, ◌≤◌, ◌^◌, ℕ, nat_lt, All, length, IfOk};
ghost use Rattle.er_paths.specs.Limits.{most_actions};
ghost use Rattle.er_paths.specs.Paths.{joins};
ghost use Rattle.er_paths.specs.links.Chains.{chains, chain_of, place_of};
ghost use Rattle.er_clocks.specs.Asked.{AreEntries, AreLaid, asked, entry_at, first_apart, first_joining, first_led};
ghost use Rattle.er_clocks.specs.Rows.{is_covered};

use crate::row::{Number, copied_to, number_at};
use crate::{Clocks, Meter};
use er_io::NoMemory;

/// So many are asked by the row of j, which most often answers: they cost what it costs to lay out
/// the entries of some thousand chains.
const NEAR: usize = 256;

/// What is looked up of an action once, before many are asked whether they have a path to it.
#[derive(Clone, Copy)]
struct Target<'a> {
    chain: u32,
    /// Its entry at its own chain.
    number: u32,
    row: &'a [Number],
}

impl Clocks {
    /// The place of the first of these that has a path to j, or their number.
    ///
    /// Each of them up to that one counts one comparison.
    pub fn first_joining(&self, firsts: &[u32], j: u32, meter: &mut Meter) -> usize
        requires firsts { All (λ i. i < length self.now) firsts.now }
        requires second { j < length self.now }
        requires room { meter.old + length firsts.now < 2 ^ 62 }
        ensures answer { result ≡ first_joining (joins self.now) firsts.now j }
        ensures within { result ≤ length firsts.now }
        ensures once { meter.new ≡ meter.old + asked firsts.now result }
    {
        let n = self.first_with_path(firsts, j);
        meter.rise((n + 1).min(firsts.len()) as u64);
        n
    }

    /// The place of the first of these to which a path leads from i, or their number.
    ///
    /// Each of them up to that one counts one comparison.
    pub fn first_led(&self, i: u32, seconds: &[u32], meter: &mut Meter) -> usize
        requires first { i < length self.now }
        requires seconds { All (λ j. j < length self.now) seconds.now }
        requires room { meter.old + length seconds.now < 2 ^ 62 }
        ensures answer { result ≡ first_led (joins self.now) i seconds.now }
        ensures within { result ≤ length seconds.now }
        ensures once { meter.new ≡ meter.old + asked seconds.now result }
    {
        let n = self.first_behind(i, seconds);
        meter.rise((n + 1).min(seconds.len()) as u64);
        n
    }

    /// The same with no meter.
    #[inline(never)]
    fn first_with_path(&self, firsts: &[u32], j: u32) -> usize
        requires firsts { All (λ i. i < length self.now) firsts.now }
        requires second { j < length self.now }
        ensures answer { result ≡ first_joining (joins self.now) firsts.now j }
        ensures within { result ≤ length firsts.now }
    {
        let target = self.target(j);
        for (n, i) in firsts.iter().enumerate() {
            if self.has_path_to(*i, target) {
                return n;
            }
        }
        firsts.len()
    }

    /// The same with no meter.
    #[inline(never)]
    fn first_behind(&self, i: u32, seconds: &[u32]) -> usize
        requires first { i < length self.now }
        requires seconds { All (λ j. j < length self.now) seconds.now }
        ensures answer { result ≡ first_led (joins self.now) i seconds.now }
        ensures within { result ≤ length seconds.now }
    {
        let chain = self.numbers[i as usize];
        let place = self.places[i as usize];
        for (n, j) in seconds.iter().enumerate() {
            if place < self.own_entry(*j, chain) {
                return n;
            }
        }
        seconds.len()
    }

    fn target(&self, j: u32) -> Target<'_>
        requires { j < length self.now }
        ensures entries { AreEntries self.now j
            (entry_at result.chain result.number result.row.now) }
        ensures there { result.chain < length (chains self.now) }
        ensures few { result.number ≤ most_actions }
    {
        let place = self.places[j as usize];
        Target {
            chain: self.numbers[j as usize],
            number: place + 1,
            row: self.rows.list(j).numbers(),
        }
    }

    /// Whether fewer come before i in its chain than the target's entry there says.
    fn has_path_to(&self, i: u32, target: Target<'_>) -> bool
        requires { i < length self.now }
        ensures { result ≡ nat_lt (place_of self.now i)
            (entry_at target.entry.chain target.entry.number target.entry.row.now
            (chain_of self.now i)) }
    {
        let chain = self.numbers[i as usize];
        let entry = if chain == target.chain {
            target.number
        } else {
            number_at(target.row, chain)
        };
        self.places[i as usize] < entry
    }
}

impl Clocks {
    /// The place of the first of these that has no path to j, or their number.
    ///
    /// Where many are left behind the first few, the entries of j are laid out for all chains, and
    /// each of them costs one look-up there.
    pub(crate) fn first_pathless(&self, firsts: &[u32], j: u32) -> usize
        requires firsts { All (λ i. i < length self.now) firsts.now }
        requires second { j < length self.now }
        ensures answer { result ≡ first_apart (joins self.now) firsts.now j }
        ensures within { result ≤ length firsts.now }
    {
        let near = firsts.len().min(NEAR);
        let n = self.near_pathless(&firsts[..near], j);
        if n < near {
            return n;
        }
        if near == firsts.len() {
            return n;
        }
        near + self.far_pathless(&firsts[near..], j)
    }

    /// The same by the row of j.
    #[inline(never)]
    fn near_pathless(&self, firsts: &[u32], j: u32) -> usize
        requires firsts { All (λ i. i < length self.now) firsts.now }
        requires second { j < length self.now }
        ensures answer { result ≡ first_apart (joins self.now) firsts.now j }
        ensures within { result ≤ length firsts.now }
    {
        let target = self.target(j);
        for (n, i) in firsts.iter().enumerate() {
            if !self.has_path_to(*i, target) {
                return n;
            }
        }
        firsts.len()
    }

    /// The same by the entries of j at all chains, where these are no more and there is memory.
    fn far_pathless(&self, firsts: &[u32], j: u32) -> usize
        requires firsts { All (λ i. i < length self.now) firsts.now }
        requires second { j < length self.now }
        ensures answer { result ≡ first_apart (joins self.now) firsts.now j }
        ensures within { result ≤ length firsts.now }
    {
        if firsts.len() < self.chains.count() as usize {
            return self.near_pathless(firsts, j);
        }
        match self.laid_out(j) {
            Ok(laid) => self.first_uncovered(firsts, &laid),
            Err(NoMemory) => self.near_pathless(firsts, j),
        }
    }

    /// The entries of j at all chains.
    fn laid_out(&self, j: u32) -> Result<Vec<Number>, NoMemory>
        requires { j < length self.now }
        ensures { IfOk result (λ laid. AreLaid self.now j laid.items) }
    {
        let count = self.chains.count() as usize;
        let target = self.target(j);
        let mut laid = copied_to(*self.numbers.allocator(), target.row, count)?;
        laid[target.chain as usize] = target.number as Number;
        Ok(laid)
    }

    /// The place of the first of these that the laid out entries do not cover, or their number.
    #[inline(never)]
    fn first_uncovered(&self, firsts: &[u32], laid: &[Number]) -> usize
        requires firsts { All (λ i. i < length self.now) firsts.now }
        requires long { length laid.now ≡ length (chains self.now) }
        ensures answer { (j : ℕ) → AreLaid self.now j laid.now
            → result ≡ first_apart (joins self.now) firsts.now j }
        ensures within { result ≤ length firsts.now }
    {
        for (n, i) in firsts.iter().enumerate() {
            if !self.covers_laid(laid, *i) {
                return n;
            }
        }
        firsts.len()
    }

    /// Whether the laid out entries have more members of the chain of i than come before i.
    fn covers_laid(&self, laid: &[Number], i: u32) -> bool
        requires known { i < length self.now }
        requires long { length laid.now ≡ length (chains self.now) }
        ensures { result ≡ is_covered self.now laid.now i }
    {
        self.places[i as usize] < u32::from(laid[self.numbers[i as usize] as usize])
    }
}
