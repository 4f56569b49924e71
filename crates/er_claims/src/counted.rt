//! How many of the timeouts that fired right before another stand to it in a certain way.

ghost use Rattle.std.specs.Prelude.{◌≡◌, ◌↔◌, ◌≤◌, IsTrue, length};
ghost use Rattle.er_claims.specs.Fired.{AreCounted, GoesOn, IsCounted, IsNoEarlier, IsNoShorter, StandSo};

use crate::claimed::{FiredTimeout, SetTimeout};

/// Whether the second was set in the piece of the first, behind it and with no lesser delay.
fn goes_on(first: SetTimeout, second: SetTimeout) -> bool
    ensures { IsTrue result ↔ GoesOn first second }
{
    first.piece == second.piece && first.delay <= second.delay && first.rank < second.rank
}

/// How many right before it were set in its piece before it, with no greater delay.
fn run_before(fired: &[FiredTimeout], set: SetTimeout) -> usize
    ensures { AreCounted fired.now → StandSo GoesOn fired.now (length fired.now) set result }
{
    let count = fired.len();
    if count == 0 {
        return 0;
    }
    let last = fired[count - 1];
    if goes_on(last.set, set) {
        return last.run as usize + 1;
    }
    0
}

/// How many right before it have no lesser delay.
fn longer_before(fired: &[FiredTimeout], set: SetTimeout) -> usize
    ensures { AreCounted fired.now → StandSo IsNoShorter fired.now (length fired.now) set result }
{
    let count = fired.len();
    let mut left = count;
    while left > 0 {
        let last = fired[left - 1];
        if last.set.delay < set.delay {
            break;
        }
        left = (left - 1).saturating_sub(last.longer as usize);
    }
    count - left
}

/// How many right before it were set no earlier.
fn later_before(fired: &[FiredTimeout], set: SetTimeout) -> usize
    ensures { AreCounted fired.now → StandSo IsNoEarlier fired.now (length fired.now) set result }
{
    let count = fired.len();
    let mut left = count;
    while left > 0 {
        let last = fired[left - 1];
        if last.set.rank < set.rank {
            break;
        }
        left = (left - 1).saturating_sub(last.later as usize);
    }
    count - left
}

/// As many, or as a number of two bytes can tell.
fn cut(count: usize) -> u16
    ensures { result ≤ count }
{
    if count > 65_535 {
        return 65_535;
    }
    count as u16
}

/// The timeout with its counts of those that fired before it.
pub(crate) fn counted(fired: &[FiredTimeout], set: SetTimeout) -> FiredTimeout
    ensures set { result.set ≡ set }
    ensures counted { AreCounted fired.now → IsCounted fired.now (length fired.now) result }
{
    FiredTimeout {
        set,
        run: cut(run_before(fired, set)),
        longer: cut(longer_before(fired, set)),
        later: cut(later_before(fired, set)),
    }
}
