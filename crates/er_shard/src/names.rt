//! What some of the shards name, and how two parts are put together.

ghost use Rattle.std.specs.Prelude.{◌≡◌, ◌+◌, ◌-◌, ◌*◌, ◌/◌, ◌<◌, ◌≤◌, ◌^◌, ◌++◌, ℕ, Bool, length, IfOk};
ghost use Rattle.er_cover.specs.Groups.{most_classes};
ghost use Rattle.er_cover.specs.Parts.{Classing, once_of};
ghost use Rattle.er_shard.specs.Named.{AreBothNamed, IsNamed, begin_of};

use er_clocks::Meter;
use er_io::NoMemory;

/// The groups that some classes name, or out of memory, and how many comparisons were made.
#[derive(Drop)]
pub(crate) struct Names {
    pub(crate) names: Result<Vec<u32>, NoMemory>,
    pub(crate) meter: Meter,
}

/// Where the classes of a shard begin: the shard's number times that of all classes, divided by the
/// number of shards.
#[tactic(auto, using(crate::proofs::NamedLemmas::begins_within))]
pub(crate) fn begin(count: u32, shards: u32, shard: u32) -> u32
    requires some { 0 < shards }
    requires within { shard ≤ shards }
    ensures begin { result ≡ shard * count / shards }
    ensures within { result ≤ count }
{
    (u64::from(shard) * u64::from(count) / u64::from(shards)) as u32
}

/// What the classes of both name.
pub(crate) fn together(left: Names, right: Names) -> Names
    requires { left.meter + right.meter < 2 ^ 62 }
    ensures { (shards from middle to : ℕ) (joined : ℕ → ℕ → Bool) (classes : Classing)
        → begin_of shards classes from ≤ begin_of shards classes middle
        → begin_of shards classes middle ≤ begin_of shards classes to
        → IsNamed shards from middle joined classes left.names left.meter
        → IsNamed shards middle to joined classes right.names right.meter
        → IsNamed shards from to joined classes result.names result.meter }
{
    let Names { names, mut meter } = left;
    let Names {
        names: more,
        meter: others,
    } = right;
    meter.absorb(others);
    Names {
        names: both(names, more),
        meter,
    }
}

/// One after the other.
fn both(
    names: Result<Vec<u32>, NoMemory>,
    more: Result<Vec<u32>, NoMemory>,
) -> Result<Vec<u32>, NoMemory>
    ensures { AreBothNamed names more result }
{
    match names {
        Ok(names) => match more {
            Ok(more) => append(names, &more),
            Err(fault) => Err(fault),
        },
        Err(fault) => Err(fault),
    }
}

fn append(mut names: Vec<u32>, more: &[u32]) -> Result<Vec<u32>, NoMemory>
    ensures { IfOk result (λ all. all.items ≡ names.items ++ more.now) }
{
    let Ok(()) = names.extend_from_slice(more) else {
        return Err(NoMemory);
    };
    Ok(names)
}
