//! What some of the shards found, and how two parts are put together.

ghost use Rattle.std.specs.Prelude.{◌≡◌, ◌+◌, ◌<◌, ◌≤◌, ◌^◌, ◌++◌, ℕ, Bool, List, length, Err, IfOk};
ghost use Rattle.er_access.specs.Kept.{Kept};
ghost use Rattle.er_races.specs.Races.{most_races};
ghost use Rattle.er_shard.specs.Parts.{AreBoth, IsPart};

use er_clocks::Meter;
use er_races::{ListFault, MOST_RACES, Race};

/// The races of some of the shards, or why they were not listed, and how many comparisons
/// were made.
#[derive(Drop)]
pub(crate) struct Part {
    pub(crate) races: Result<Vec<Race>, ListFault>,
    pub(crate) meter: Meter,
}

/// The part of the shards of both.
pub(crate) fn together(left: Part, right: Part) -> Part
    requires { left.meter + right.meter < 2 ^ 62 }
    ensures { (shards from middle to : ℕ) (joined : ℕ → ℕ → Bool) (kept : List Kept)
        → from ≤ middle → middle ≤ to
        → IsPart shards from middle joined kept left.races left.meter
        → IsPart shards middle to joined kept right.races right.meter
        → IsPart shards from to joined kept result.races result.meter }
{
    let Part { races, mut meter } = left;
    let Part {
        races: more,
        meter: others,
    } = right;
    meter.absorb(others);
    Part {
        races: both(races, more),
        meter,
    }
}

/// The races of both, unless they are too many.
fn both(
    races: Result<Vec<Race>, ListFault>,
    more: Result<Vec<Race>, ListFault>,
) -> Result<Vec<Race>, ListFault>
    ensures { AreBoth races more result }
{
    match races {
        Ok(races) => match more {
            Ok(more) => append(races, &more),
            Err(fault) => Err(fault),
        },
        Err(fault) => Err(fault),
    }
}

/// One after the other.
fn append(mut races: Vec<Race>, more: &[Race]) -> Result<Vec<Race>, ListFault>
    ensures all { IfOk result (λ all. all.items ≡ races.items ++ more.now) }
    ensures few { IfOk result (λ all. length all.items ≤ most_races) }
    ensures many { result ≡ Err ListFault.TooManyRaces
        → most_races < length races.items + length more.now }
{
    if races.len() + more.len() > MOST_RACES {
        return Err(ListFault::TooManyRaces);
    }
    let Ok(()) = races.extend_from_slice(more) else {
        return Err(ListFault::NoMemory);
    };
    Ok(races)
}
