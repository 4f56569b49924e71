//! First fit: the lowest chain all of whose members have a path to the action that is to come.

ghost use Rattle.std.specs.Prelude.{◌≡◌, ◌≢◌, ◌≤◌, ◌<◌, ℕ, length, slice_index};
ghost use Rattle.er_clocks.specs.Reached.{reach_at, like_at, IsReachFrom, IsFit};

use crate::row::Number;
use crate::sources::Reach;
use crate::{Chains, Clocks};

impl Clocks {
    /// The chain that first fit takes where these are the entries.
    pub(crate) fn fit(&self, reach: &Reach) -> u32
        requires { IsReachFrom (length self.now) reach.now }
        ensures { IsFit self.now (reach_at self.now reach.now) result }
    {
        match reach {
            Reach::Like(j, number) => self.fit_like(*j, *number),
            Reach::Own(row) => self.fit_row(row.numbers()),
        }
    }

    /// The same where they are those of j, but at its chain. The last members of lower chains have
    /// no path to j: it would have taken such a chain.
    fn fit_like(&self, j: u32, number: u32) -> u32
        requires { j < length self.now }
        ensures { IsFit self.now (like_at self.now j number) result }
    {
        let chain = self.numbers[j as usize];
        if self.chains.length(chain) == number {
            return chain;
        }
        first_full(&self.chains, self.rows.list(j).numbers(), chain + 1)
    }

    fn fit_row(&self, row: &[Number]) -> u32
        ensures { IsFit self.now (slice_index row.now) result }
    {
        first_full(&self.chains, row, 0)
    }
}

/// The lowest chain, of these and higher ones, whose length is the row's number, or how
/// many chains there are.
fn first_full(chains: &Chains, row: &[Number], from: u32) -> u32
    requires begun { (c : ℕ) → c < length chains.now → 0 < slice_index chains.now c }
    ensures within { result ≤ length chains.now }
    ensures above { result < length chains.now → from ≤ result }
    ensures lower { (c : ℕ) → from ≤ c → c < result
        → slice_index row.now c ≢ slice_index chains.now c }
    ensures full { result < length chains.now
        → slice_index row.now result ≡ slice_index chains.now result }
{
    let count = chains.count();
    let end = row.len().min(count as usize);
    for c in from as usize..end {
        if u32::from(row[c]) == chains.length(c as u32) {
            return c as u32;
        }
    }
    count
}
