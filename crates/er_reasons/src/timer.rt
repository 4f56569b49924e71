//! Rules 18 to 20.

ghost use Rattle.std.specs.Prelude.{◌≡◌, ℕ, Bool, List};
ghost use Rattle.er_trace.specs.declared.record.Record.{Record};
ghost use Rattle.er_paths.specs.Paths.{joins};
ghost use Rattle.er_history.specs.Rules as rules;
ghost use Rattle.er_history.specs.Edges.{up_to};
ghost use Rattle.er_history.specs.LookUps.{timeout_made};
ghost use Rattle.er_clocks.specs.Clock.{StandsFor};
ghost use Rattle.er_page.specs.Page.{IsPage};
ghost use Rattle.er_reasons.specs.Shown.{holds, least};
ghost use Rattle.er_reasons.specs.Words.{fires_behind, fires_in_order, is_setter};

use crate::elements::{made_by, recorded};
use crate::event::{Event, What};
use crate::numbers::least_from;
use crate::paths::leads_before;
use er_clocks::Clocks;
use er_page::page::Page;
use er_trace::version::Version;

/// The least number of a rule of the version on timers that holds from u to v.
pub(crate) fn timer_rule(
    page: &Page,
    clocks: &Clocks,
    version: Version,
    u: &Event<'_>,
    v: &Event<'_>,
) -> Option<u32>
    ensures { (h : List Record) (lists : List (List ℕ)) → IsPage page.now h
        → StandsFor clocks.now lists
        → result
        ≡ least (rules.timer_rules version) (up_to v.now.number (joins lists)) h u.now v.now }
{
    least_from(
        18,
        &[
            set_before_timer(page, u, v),
            timers_in_order(page, clocks, version, u, v),
            ticks_in_order(u, v),
        ],
    )
}

fn set_before_timer(page: &Page, u: &Event<'_>, v: &Event<'_>) -> bool
    ensures { (joined : ℕ → ℕ → Bool) (h : List Record) → IsPage page.now h
        → result ≡ holds rules.set_before_timer joined h u.now v.now }
{
    match v.what {
        What::TimeoutRun { timeout } => is_setter(page, timeout, u.number),
        _ => false,
    }
}

/// Rule 19 of the version.
fn timers_in_order(
    page: &Page,
    clocks: &Clocks,
    version: Version,
    u: &Event<'_>,
    v: &Event<'_>,
) -> bool
    ensures { (h : List Record) (lists : List (List ℕ)) → IsPage page.now h
        → StandsFor clocks.now lists
        → result
        ≡ holds (rules.timers_in_order version) (up_to v.now.number (joins lists)) h u.now v.now }
{
    match version {
        Version::One => timers_of_one_event_in_order(page, u, v),
        Version::Two => timers_of_joined_pieces_in_order(page, clocks, u, v),
        Version::Three => timers_of_joined_pieces_in_order(page, clocks, u, v),
    }
}

fn timers_of_one_event_in_order(page: &Page, u: &Event<'_>, v: &Event<'_>) -> bool
    ensures { (joined : ℕ → ℕ → Bool) (h : List Record) → IsPage page.now h
        → result ≡ holds rules.timers_of_one_event_in_order joined h u.now v.now }
{
    let first = recorded(u, v);
    match u.what {
        What::TimeoutRun { timeout } => match v.what {
            What::TimeoutRun { timeout: later } => first & fires_in_order(page, timeout, later),
            _ => false,
        },
        _ => false,
    }
}

fn timers_of_joined_pieces_in_order(
    page: &Page,
    clocks: &Clocks,
    u: &Event<'_>,
    v: &Event<'_>,
) -> bool
    ensures { (h : List Record) (lists : List (List ℕ)) → IsPage page.now h
        → StandsFor clocks.now lists
        → result
        ≡ holds rules.timers_of_joined_pieces_in_order (up_to v.now.number (joins lists))
        h u.now v.now }
{
    let first = recorded(u, v);
    match u.what {
        What::TimeoutRun { timeout } => match v.what {
            What::TimeoutRun { timeout: later } => {
                first & fires_behind(page, clocks, timeout, later, v.number)
            }
            _ => false,
        },
        _ => false,
    }
}

fn ticks_in_order(u: &Event<'_>, v: &Event<'_>) -> bool
    ensures { (joined : ℕ → ℕ → Bool) (h : List Record)
        → result ≡ holds rules.ticks_in_order joined h u.now v.now }
{
    let first = recorded(u, v);
    match v.what {
        What::TickRun { interval, maker } => match u.what {
            What::TickRun {
                interval: earlier,
                ..
            } => made_by(maker, u) | (first & (interval == earlier)),
            _ => made_by(maker, u) | false,
        },
        _ => false,
    }
}

/// Whether this event set the timeout.
fn is_setter(page: &Page, timeout: u32, event: u32) -> bool
    ensures { (h : List Record) → IsPage page.now h
        → result ≡ is_setter (timeout_made h timeout) event }
{
    match page.maker_of_timeout(timeout) {
        Some(maker) => maker == event,
        None => false,
    }
}

/// Whether one event set both timeouts, the one before the other with no greater delay.
fn fires_in_order(page: &Page, timeout: u32, later: u32) -> bool
    ensures { (h : List Record) → IsPage page.now h
        → result ≡ fires_in_order (timeout_made h timeout) (timeout_made h later) }
{
    let Some(maker) = page.maker_of_timeout(timeout) else {
        return false;
    };
    let Some(other) = page.maker_of_timeout(later) else {
        return false;
    };
    let Some(delay) = page.delay_of(timeout) else {
        return false;
    };
    let Some(longer) = page.delay_of(later) else {
        return false;
    };
    (maker == other) & (page.set_before(timeout, later) & (delay <= longer))
}

/// Whether the one timeout was set before the other with no greater delay, and a path among the
/// actions before this one leads from the piece that set the one to the piece that set the other.
fn fires_behind(page: &Page, clocks: &Clocks, timeout: u32, later: u32, before: u32) -> bool
    ensures { (h : List Record) (lists : List (List ℕ)) → IsPage page.now h
        → StandsFor clocks.now lists
        → result
        ≡ fires_behind (up_to before (joins lists))
        (timeout_made h timeout) (timeout_made h later) }
{
    let Some(piece) = page.setting_piece(timeout) else {
        return false;
    };
    let Some(other) = page.setting_piece(later) else {
        return false;
    };
    let Some(delay) = page.delay_of(timeout) else {
        return false;
    };
    let Some(longer) = page.delay_of(later) else {
        return false;
    };
    page.set_before(timeout, later)
        & ((delay <= longer) & leads_before(clocks, piece, other, before))
}
