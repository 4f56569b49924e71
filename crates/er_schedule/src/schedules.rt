//! Two orders of all actions.

ghost use Rattle.std.specs.Prelude.{◌≡◌};

use std::marker::Model;

/// Two orders of all actions. Callers see both lists.
#[derive(Drop)]
pub struct Schedules {
    pub(crate) first: Vec<u32>,
    pub(crate) second: Vec<u32>,
}

impl Model for Schedules {
    ghost use Rattle.er_schedule.specs.Schedules.{Orders};

    ghost Value = { Orders };

    ghost view = { λ s. record { first = s.first.items; second = s.second.items } };
}

impl Schedules {
    /// The order in which the action of the first access stands directly before that of the second.
    pub fn first(&self) -> &[u32]
        ensures { result.now ≡ self.now.first }
    {
        self.first.as_slice()
    }

    /// The order in which it stands directly after it.
    pub fn second(&self) -> &[u32]
        ensures { result.now ≡ self.now.second }
    {
        self.second.as_slice()
    }
}
