//! Which record stands at a place.

ghost use Rattle.std.specs.Prelude.{◌≡◌, ◌≤◌, IfOk, slice_get};
ghost use Rattle.er_gen.specs.Generated as spec;

use crate::forms::{click, focus, parse, read, run, write};
use er_io::NoMemory;
use er_trace::record::{Kind, Record};
use std::alloc::Global;

/// How many records the opening has.
const OPENING: u32 = 6;

/// How many records a round has.
const ROUND: u32 = 12;

/// The record at a place of the opening.
fn opening(place: u32) -> Option<Record>
    ensures { result ≡ slice_get spec.opening place }
{
    Some(match place {
        0 => parse(1, Kind::Inline),
        1 => Record::Exec { element: 1 },
        2 => Record::On { handler: 1 },
        3 => Record::On { handler: 2 },
        4 => Record::Set {
            timeout: 1,
            delay: 1,
        },
        5 => Record::Set {
            timeout: 2,
            delay: 0,
        },
        _ => return None,
    })
}

/// The record at a place of a round.
fn round(alloc: Global, k: u32, place: u32) -> Result<Option<Record>, NoMemory>
    requires least { 1 ≤ k }
    requires most { k ≤ spec.most_rounds }
    ensures { IfOk result (λ found. found ≡ slice_get (spec.round k) place) }
{
    let p = 2 * k - 1;
    let q = 2 * k;
    Ok(Some(match place {
        0 => parse(k + 1, Kind::Plain),
        1 => write(alloc, "a")?,
        2 => click(alloc, p)?,
        3 => run(p, 1),
        4 => write(alloc, "b")?,
        5 => focus(alloc, q)?,
        6 => run(q, 2),
        7 => read(alloc, "b")?,
        8 => Record::Close { dispatch: q },
        9 => Record::Back { dispatch: q },
        10 => write(alloc, "b")?,
        11 => Record::Close { dispatch: p },
        _ => return Ok(None),
    }))
}

/// The record at a place of the closing.
fn closing(alloc: Global, place: u32) -> Result<Option<Record>, NoMemory>
    ensures { IfOk result (λ found. found ≡ slice_get spec.closing place) }
{
    Ok(Some(match place {
        0 => Record::Timer { timeout: 2 },
        1 => write(alloc, "a")?,
        2 => Record::Timer { timeout: 1 },
        3 => read(alloc, "a")?,
        _ => return Ok(None),
    }))
}

/// The record at a place of the whole trace.
#[tactic(auto, using(crate::proofs::GeneratedLemmas::at_closing))]
pub(crate) fn record_at(alloc: Global, rounds: u32, place: u32) -> Result<Option<Record>, NoMemory>
    requires { rounds ≤ spec.most_rounds }
    ensures { IfOk result (λ found. found ≡ slice_get (spec.generated rounds) place) }
{
    if place < OPENING {
        return Ok(opening(place));
    }
    let place = place - OPENING;
    if place < ROUND * rounds {
        return round(alloc, place / ROUND + 1, place % ROUND);
    }
    closing(alloc, place - ROUND * rounds)
}
