//! The steps from one action to another.

ghost use Rattle.std.specs.Prelude.{◌≡◌, ◌<◌, ◌^◌, Some, length, slice_get};
ghost use Rattle.er_explain.specs.Steps.{shown};

use std::marker::Model;

/// A link from one action to another, and the number of its rule.
#[derive(Clone, Copy, Debug, PartialEq, Eq)]
pub struct Step {
    pub from: u32,
    pub to: u32,
    pub rule: u32,
}

/// The steps from one action to another, the first step first. Callers see the list of them.
#[derive(Drop)]
pub struct Steps {
    pub(crate) steps: Vec<Step>,
}

impl Model for Steps {
    ghost use Rattle.std.specs.Prelude.{List, ◌<◌, ◌^◌, length};
    ghost use Rattle.er_pieces.specs.steps.Steps as spec;
    ghost use Rattle.er_explain.specs.Steps.{all_shown};

    ghost Value = { List spec.Step };

    ghost view = { λ s. all_shown s.steps.items };

    ghost invariant = { λ s. length s.steps.items < 2 ^ 32 };
}

impl Steps {
    /// How many steps there are.
    pub fn len(&self) -> u32
        ensures { result ≡ length self.now }
    {
        self.steps.len() as u32
    }

    /// Step number k, from 0.
    pub fn step(&self, k: u32) -> Step
        requires { k < length self.now }
        ensures { slice_get self.now k ≡ Some (shown result) }
    {
        self.steps[k as usize]
    }
}
