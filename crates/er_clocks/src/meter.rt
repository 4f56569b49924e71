//! A count of comparisons.

ghost use Rattle.std.specs.Prelude.{◌≡◌, ◌+◌, ◌<◌, ◌^◌};

use std::marker::Model;

/// How many comparisons were made. Callers see the number.
#[derive(Debug, Drop)]
pub struct Meter {
    count: u64,
}

impl Model for Meter {
    ghost use Rattle.std.specs.Prelude.{ℕ};

    ghost Value = { ℕ };

    ghost view = { λ m. m.count };
}

impl Meter {
    pub fn new() -> Self
        ensures { result ≡ 0 }
    {
        Meter { count: 0 }
    }

    pub fn made(&self) -> u64
        ensures { result ≡ self.now }
    {
        self.count
    }

    /// Adds the count of another meter.
    pub fn absorb(&mut self, other: Meter)
        requires { self.old + other < 2 ^ 62 }
        ensures { self.new ≡ self.old + other }
    {
        self.count += other.count;
    }

    pub(crate) fn rise(&mut self, more: u64)
        requires { self.old + more < 2 ^ 62 }
        ensures { self.new ≡ self.old + more }
    {
        self.count += more;
    }
}
