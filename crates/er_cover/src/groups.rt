//! What each race names, and what is told of each group.

ghost use Rattle.std.specs.Prelude.{◌≡◌, ◌<◌, ◌≤◌, length, slice_index};
ghost use Rattle.er_races.specs.Races.{most_races};

use std::marker::Model;

/// The groups of races. Races and groups are numbered from 0, groups in the order of their
/// representatives.
pub struct Groups {
    pub(crate) names: Vec<u32>,
    pub(crate) representatives: Vec<u32>,
    pub(crate) sizes: Vec<u32>,
}

impl Drop for Groups {
    fn drop(self) {
        let Groups {
            names: _,
            representatives: _,
            sizes: _,
        } = self;
    }
}

impl Model for Groups {
    ghost use Rattle.er_cover.specs.Groups.{Grouping};
    ghost use Rattle.er_cover.specs.Passes.{AreWhole, the_groups};

    ghost Value = { Grouping };

    ghost view = { λ g. the_groups g.names.items g.representatives.items g.sizes.items };

    ghost invariant = { λ g. AreWhole g.names.items g.representatives.items g.sizes.items };
}

impl Groups {
    /// The group that a race names.
    pub fn names(&self, k: u32) -> u32
        requires { k < length self.now.names }
        ensures { result ≡ slice_index self.now.names k }
    {
        self.names[k as usize]
    }

    /// The first race of the group's class.
    pub fn representative(&self, g: u32) -> u32
        requires { g < length self.now.representatives }
        ensures { result ≡ slice_index self.now.representatives g }
    {
        self.representatives[g as usize]
    }

    /// How many races name the group.
    pub fn size(&self, g: u32) -> u32
        requires { g < length self.now.representatives }
        ensures { result ≡ slice_index self.now.sizes g }
    {
        self.sizes[g as usize]
    }

    /// How many groups there are.
    pub fn count(&self) -> u32
        ensures count { result ≡ length self.now.representatives }
        ensures few { length self.now.names ≤ most_races }
    {
        self.representatives.len() as u32
    }
}
