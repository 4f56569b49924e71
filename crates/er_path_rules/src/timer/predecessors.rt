//! The pieces that come before the action that a record would begin.

ghost use Rattle.std.specs.Prelude.{◌≡◌, List, [], ◌∷◌, ◌++◌, length, map, take, OnOk, OnErr};
ghost use Rattle.er_trace.specs.declared.record.Record.{Record};
ghost use Rattle.er_history.specs.History.{told};
ghost use Rattle.er_history.specs.Latest.{latest_of_event};
ghost use Rattle.er_claims.specs.Fired.{number_of, sets};
ghost use Rattle.er_claims.specs.Claimed.{IsSet};
ghost use Rattle.er_page.specs.Page.{IsPage, IsSomePage};
ghost use Rattle.er_pieces.specs.Contract.{GrewForEach, GrewInPartForEach, HandsFew};
ghost use Rattle.er_pieces.specs.Counts.{most_timer};
ghost use Rattle.er_page.specs.Handing.{HasEvents};
ghost use Rattle.er_path_rules.specs.timer.Fired.{fired_handed, callback_handed, tick_handed};
ghost use Rattle.er_path_rules.specs.timer.Fired as says;
ghost use Rattle.er_path_rules.specs.timer.Enough.{HandsEnoughTimers, HandsSourceTimers, timer_due};
ghost use Rattle.er_path_rules.specs.timer.Grown.{GrewEnoughFor, GrewSomeFor};
ghost use Rattle.er_path_rules.specs.timer.Timed.{IsTimed, IsSomeTimed};
ghost use Rattle.er_path_rules.specs.timer.Walk.{AreFired};

use crate::timer::fired::hand_fired;
use er_claims::claimed::{FiredTimeout, SetTimeout};
use er_clocks::Clocks;
use er_io::NoMemory;
use er_page::handing::hand_latest;
use er_page::page::Page;
use er_trace::record::Record;
use er_trace::version::Version;
use smallvec::SmallVec;

/// Hands the latest pieces of the events that come before a callback: of the one that set its
/// timeout, and of callbacks of timeouts from which rule 19 of the version leads; or of the one
/// that set its interval, and of the latest callback of that. Any other record is handed nothing.
/// The clocks are those of the page's actions in this version.
///
/// Of callbacks that come one before the other the last may be handed alone.
pub fn predecessors(
    page: &Page,
    clocks: &Clocks,
    version: Version,
    rec: &Record,
    out: &mut SmallVec<u32, 8>,
) -> Result<(), NoMemory>
    requires timed { ∥ IsSomeTimed version page.now clocks.now ∥₁ }
    ensures enough { OnOk result
        (HandsEnoughTimers version (IsTimed version page.now clocks.now) rec.now
        out.old.items out.new.items) }
    // Memory ran out.
    ensures sources { OnErr result
        (HandsSourceTimers version (IsTimed version page.now clocks.now) rec.now
        out.old.items out.new.items) }
    ensures few { HandsFew (IsTimed version page.now clocks.now) (most_timer version)
        rec.now out.old.items out.new.items }
    // What was handed before stays in front.
    ensures kept { take (length out.old.items) out.new.items ≡ out.old.items }
{
    hand(page, clocks, version, rec, out)
}

/// Hands what is due for the record.
fn hand(
    page: &Page,
    clocks: &Clocks,
    version: Version,
    rec: &Record,
    out: &mut SmallVec<u32, 8>,
) -> Result<(), NoMemory>
    requires some { ∥ IsSomePage page.now ∥₁ }
    ensures whole { OnOk result (GrewEnoughFor version page.now clocks.now
        (timer_due version rec.now) out.old.items out.new.items) }
    ensures part { OnErr result (GrewSomeFor version page.now clocks.now
        (timer_due version rec.now) out.old.items out.new.items) }
{
    match rec {
        Record::Timer { timeout } => hand_for_timer(page, clocks, version, *timeout, out),
        Record::Tick { interval } => hand_for_tick(page, *interval, out),
        _ => Ok(()),
    }
}

/// Hands what comes before the callback of a timeout.
fn hand_for_timer(
    page: &Page,
    clocks: &Clocks,
    version: Version,
    timeout: u32,
    out: &mut SmallVec<u32, 8>,
) -> Result<(), NoMemory>
    requires some { ∥ IsSomePage page.now ∥₁ }
    ensures whole { OnOk result (GrewEnoughFor version page.now clocks.now
        (λ h. callback_handed version h timeout) out.old.items out.new.items) }
    ensures part { OnErr result (GrewSomeFor version page.now clocks.now
        (λ h. callback_handed version h timeout) out.old.items out.new.items) }
{
    match page.timeout(timeout) {
        Some(next) => hand_set_by(page, clocks, version, next, out),
        None => Ok(()),
    }
}

/// The timeouts that have fired and may come before one that this event set: in version 1 those
/// that it set itself.
fn fired_before(page: &Page, version: Version, setter: u32) -> &[FiredTimeout]
    ensures numbers { (h : List Record) → IsPage page.now h
        → map number_of (sets result.now) ≡ says.fired_before version h setter }
    ensures fired { (h : List Record) → IsPage page.now h → AreFired page.now.claimed result.now }
{
    match version {
        Version::One => page.fired_timeouts_with(setter),
        Version::Two => page.fired_timeouts(),
        Version::Three => page.fired_timeouts(),
    }
}

/// Hands the event that set the timeout, and of the timeouts that have fired those that
/// come before.
fn hand_set_by(
    page: &Page,
    clocks: &Clocks,
    version: Version,
    next: SetTimeout,
    out: &mut SmallVec<u32, 8>,
) -> Result<(), NoMemory>
    requires some { ∥ IsSomePage page.now ∥₁ }
    requires next { IsSet page.now.claimed next }
    requires events { ∥ HasEvents page.now (next.maker ∷ []) ∥₁ }
    ensures whole { OnOk result (GrewEnoughFor version page.now clocks.now
        (λ h. latest_of_event next.maker (told h).actions
        ++ fired_handed version h next.timeout next.maker)
        out.old.items out.new.items) }
    ensures part { OnErr result (GrewSomeFor version page.now clocks.now
        (λ h. latest_of_event next.maker (told h).actions
        ++ fired_handed version h next.timeout next.maker)
        out.old.items out.new.items) }
{
    hand_latest(page, Some(next.maker), out)?;
    let fired = fired_before(page, version, next.maker);
    hand_fired(page, clocks, version, next, fired, out)
}

/// Hands what comes before a callback of an interval.
fn hand_for_tick(page: &Page, interval: u32, out: &mut SmallVec<u32, 8>) -> Result<(), NoMemory>
    requires some { ∥ IsSomePage page.now ∥₁ }
    ensures whole { OnOk result
        (GrewForEach (IsPage page.now) (λ h. tick_handed h interval) out.old.items out.new.items) }
    ensures part { OnErr result
        (GrewInPartForEach (IsPage page.now)
        (λ h. tick_handed h interval) out.old.items out.new.items) }
{
    hand_latest(page, page.maker_of_interval(interval), out)?;
    hand_latest(page, page.last_tick(interval), out)
}
