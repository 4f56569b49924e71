//! Numbers of actions, one or many.

ghost use Rattle.std.specs.Prelude.{ℕ, List, [], ◌∷◌, reverse, OnOk, OnErr};
ghost use Rattle.er_trace.specs.declared.record.Record.{Record};
ghost use Rattle.er_history.specs.History.{History, told};
ghost use Rattle.er_history.specs.Latest.{latest_of};
ghost use Rattle.er_pieces.specs.Contract.{GrewBy, GrewInPart, listed, latest_of_all};
ghost use Rattle.er_pieces.specs.HandedPieces.{dcl_handed};
ghost use Rattle.er_page.specs.Page.{IsSomePage};
ghost use Rattle.er_page.specs.Handing.{HasEvents, GrewFor, GrewInPartFor};

use crate::page::Page;
use er_io::NoMemory;
use smallvec::SmallVec;

/// Hands the number.
pub fn hand(number: u32, out: &mut SmallVec<u32, 8>) -> Result<(), NoMemory>
    ensures whole { OnOk result (GrewBy out.old.items (number ∷ []) out.new.items) }
    ensures part { OnErr result (GrewInPart out.old.items (number ∷ []) out.new.items) }
{
    let Ok(()) = out.push(number) else {
        return Err(NoMemory);
    };
    Ok(())
}

/// Hands the number, if there is one.
pub fn hand_some(number: Option<u32>, out: &mut SmallVec<u32, 8>) -> Result<(), NoMemory>
    ensures whole { OnOk result (GrewBy out.old.items (listed number) out.new.items) }
    ensures part { OnErr result (GrewInPart out.old.items (listed number) out.new.items) }
{
    match number {
        Some(number) => hand(number, out),
        None => Ok(()),
    }
}

/// Hands the latest piece of the event, if there is one.
pub fn hand_latest(
    page: &Page,
    event: Option<u32>,
    out: &mut SmallVec<u32, 8>,
) -> Result<(), NoMemory>
    requires events { ∥ HasEvents page.now (listed event) ∥₁ }
    ensures whole { OnOk result (GrewFor page.now
        (λ (t : History). latest_of event t.actions) out.old.items out.new.items) }
    ensures part { OnErr result (GrewInPartFor page.now
        (λ (t : History). latest_of event t.actions) out.old.items out.new.items) }
{
    match event {
        Some(event) => hand(page.latest_piece(event), out),
        None => Ok(()),
    }
}

/// Hands the latest pieces of the events, from the last of them to the first.
pub fn hand_each(page: &Page, events: &[u32], out: &mut SmallVec<u32, 8>) -> Result<(), NoMemory>
    requires events { ∥ HasEvents page.now events.now ∥₁ }
    ensures whole { OnOk result (GrewFor page.now
        (λ (t : History). latest_of_all (reverse events.now) t.actions)
        out.old.items out.new.items) }
    ensures part { OnErr result (GrewInPartFor page.now
        (λ (t : History). latest_of_all (reverse events.now) t.actions)
        out.old.items out.new.items) }
{
    let count = events.len();
    for back in 0..count {
        hand_latest(page, Some(events[count - 1 - back]), out)?;
    }
    Ok(())
}

/// Hands the latest parse step of the document, its latest blocking run and its latest
/// deferred run.
pub fn hand_parsed(page: &Page, doc: u32, out: &mut SmallVec<u32, 8>) -> Result<(), NoMemory>
    requires some { ∥ IsSomePage page.now ∥₁ }
    ensures whole { OnOk result
        (GrewFor page.now (λ (t : History). dcl_handed t doc) out.old.items out.new.items) }
    ensures part { OnErr result
        (GrewInPartFor page.now (λ (t : History). dcl_handed t doc) out.old.items out.new.items) }
{
    hand_latest(page, page.last_parse(doc), out)?;
    hand_latest(page, page.last_blocking_run(doc), out)?;
    hand_latest(page, page.last_deferred_run(doc), out)
}
