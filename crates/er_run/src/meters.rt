//! What a run counts.

ghost use Rattle.std.specs.Prelude.{◌≡◌};

use er_clocks::Meter;

/// How many comparisons were made: `compares` of candidate pairs, `tests` to group the races.
#[derive(Drop)]
pub struct Meters {
    pub compares: Meter,
    pub tests: Meter,
}

impl Meters {
    /// Nothing is counted yet.
    pub fn new() -> Meters
        ensures compares { result.compares ≡ 0 }
        ensures tests { result.tests ≡ 0 }
    {
        Meters {
            compares: Meter::new(),
            tests: Meter::new(),
        }
    }
}
