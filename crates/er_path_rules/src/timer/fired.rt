//! Which of two timeouts goes off first, and what is handed of those that have fired.

ghost use Rattle.std.specs.Prelude.{◌≡◌, ℕ, ◌<◌, ◌≤◌, List, length, reverse, map, IfOk, IfSome, OnOk, OnErr};
ghost use Rattle.er_trace.specs.declared.record.Record.{Record};
ghost use Rattle.er_clocks.specs.Clock.{Tells};
ghost use Rattle.er_paths.specs.Paths.{joins};
ghost use Rattle.er_claims.specs.declared.claimed.FiredTimeout.{FiredTimeout};
ghost use Rattle.er_claims.specs.Fired.{IsCounted, StandSo, number_of, sets};
ghost use Rattle.er_claims.specs.Claimed.{IsSet};
ghost use Rattle.er_page.specs.declared.page.Page.{Page};
ghost use Rattle.er_page.specs.Page.{IsPage, IsSomePage};
ghost use Rattle.er_path_rules.specs.timer.Fired as says;
ghost use Rattle.er_path_rules.specs.timer.Fired.{handed_for_each};
ghost use Rattle.er_path_rules.specs.timer.Grown.{GrewEnoughFor, GrewSomeFor};
ghost use Rattle.er_path_rules.specs.timer.Timed.{IsTimed};
ghost use Rattle.er_path_rules.specs.timer.Walk as walks;
ghost use Rattle.er_path_rules.specs.timer.Walk.{AreFired, AreJoined, Misses, WalksOn};

use er_claims::claimed::{FiredTimeout, SetTimeout};
use er_clocks::Clocks;
use er_io::NoMemory;
use er_page::handing::hand_latest;
use er_page::page::Page;
use er_trace::version::Version;
use smallvec::SmallVec;

/// How far a walk over timeouts that have fired has come, from the last to the first: how many are
/// left, and which was handed last.
#[derive(Clone, Copy)]
pub(crate) struct Walk {
    left: usize,
    handed: Option<SetTimeout>,
}

/// Whether the first was set first, with no greater delay.
fn goes_off_first(first: SetTimeout, second: SetTimeout) -> bool
    ensures { (page : Page) (h : List Record) → IsPage page h
        → IsSet page.claimed first → IsSet page.claimed second
        → result ≡ says.goes_off_first h first.timeout second.timeout }
{
    first.delay <= second.delay && first.rank < second.rank
}

/// Whether the callback of the earlier timeout comes before that of the next, where rule 19 of the
/// version says so.
fn goes_before(clocks: &Clocks, version: Version, earlier: SetTimeout, next: SetTimeout) -> bool
    ensures { (page : Page) (h : List Record) → IsTimed version page clocks.now h
        → IsSet page.claimed earlier → IsSet page.claimed next
        → result ≡ says.goes_before version h earlier.timeout next.timeout }
{
    if !goes_off_first(earlier, next) {
        return false;
    }
    if !asks_for_path(version) {
        return true;
    }
    clocks.joined(earlier.piece, next.piece)
}

/// Whether rule 19 of the version asks for a path, or for one event that set both.
pub(crate) fn asks_for_path(version: Version) -> bool
    ensures { result ≡ says.asks_for_path version }
{
    match version {
        Version::One => false,
        Version::Two => true,
        Version::Three => true,
    }
}

/// Whether the timeout goes before the one that was handed last.
fn is_covered(
    clocks: &Clocks,
    version: Version,
    earlier: SetTimeout,
    handed: Option<SetTimeout>,
) -> bool
    ensures { (page : Page) (h : List Record) → IsTimed version page clocks.now h
        → IsSet page.claimed earlier → IfSome handed (IsSet page.claimed)
        → result ≡ walks.is_covered version h earlier handed }
{
    match handed {
        Some(handed) => goes_before(clocks, version, earlier, handed),
        None => false,
    }
}

/// How many right before the earlier one have a greater delay than the next, or were set
/// no earlier.
fn missed(earlier: FiredTimeout, next: SetTimeout) -> u16
    ensures { (xs : List FiredTimeout) (place : ℕ) → IsCounted xs place earlier
        → StandSo Misses xs place next result }
{
    if next.delay < earlier.set.delay {
        return earlier.longer;
    }
    if next.rank <= earlier.set.rank {
        return earlier.later;
    }
    0
}

/// Goes on by the last timeout that is left: hands the latest piece of its callback, if that is to
/// come before the next one's (rule 19) and comes not before the one that was handed last.
///
/// What comes before it need not be asked where it was handed, or comes before one that was; nor do
/// those that are as far from coming before the next as it is.
fn walk_on(
    page: &Page,
    clocks: &Clocks,
    version: Version,
    next: SetTimeout,
    fired: &[FiredTimeout],
    walk: Walk,
    out: &mut SmallVec<u32, 8>,
) -> Result<Walk, NoMemory>
    requires some { 0 < walk.left }
    requires within { walk.left ≤ length fired.now }
    requires page { ∥ IsSomePage page.now ∥₁ }
    requires next { IsSet page.now.claimed next }
    requires fired { (h : List Record) → IsPage page.now h → AreFired page.now.claimed fired.now }
    requires joined { (h : List Record) → IsTimed version page.now clocks.now h
        → AreJoined version h fired.now }
    ensures less { IfOk result (λ on. on.left < walk.left) }
    ensures walked { IfOk result (λ on. (h : List Record) → IsTimed version page.now clocks.now h
        → WalksOn version h next.timeout fired.now walk on out.old.items out.new.items) }
    ensures same { OnErr result (out.new.items ≡ out.old.items) }
{
    let before = walk.left - 1;
    let earlier = fired[before];
    if is_covered(clocks, version, earlier.set, walk.handed) {
        return Ok(Walk {
            left: before.saturating_sub(earlier.run as usize),
            handed: walk.handed,
        });
    }
    if !goes_before(clocks, version, earlier.set, next) {
        return Ok(Walk {
            left: before.saturating_sub(missed(earlier, next) as usize),
            handed: walk.handed,
        });
    }
    hand_latest(page, page.timer_event(earlier.set.timeout), out)?;
    Ok(Walk {
        left: before.saturating_sub(earlier.run as usize),
        handed: Some(earlier.set),
    })
}

/// Hands of these timeouts, which have fired, so many that each other one that is to come before
/// the next comes before one of them.
pub(crate) fn hand_fired(
    page: &Page,
    clocks: &Clocks,
    version: Version,
    next: SetTimeout,
    fired: &[FiredTimeout],
    out: &mut SmallVec<u32, 8>,
) -> Result<(), NoMemory>
    requires page { ∥ IsSomePage page.now ∥₁ }
    requires next { IsSet page.now.claimed next }
    requires fired { (h : List Record) → IsPage page.now h → AreFired page.now.claimed fired.now }
    requires joined { (h : List Record) → IsTimed version page.now clocks.now h
        → AreJoined version h fired.now }
    ensures whole { OnOk result (GrewEnoughFor version page.now clocks.now
        (λ h. handed_for_each version h next.timeout (reverse (map number_of (sets fired.now))))
        out.old.items out.new.items) }
    ensures part { OnErr result (GrewSomeFor version page.now clocks.now
        (λ h. handed_for_each version h next.timeout (reverse (map number_of (sets fired.now))))
        out.old.items out.new.items) }
{
    let mut walk = Walk {
        left: fired.len(),
        handed: None,
    };
    while walk.left > 0 {
        walk = walk_on(page, clocks, version, next, fired, walk, out)?;
    }
    Ok(())
}
