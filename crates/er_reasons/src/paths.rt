//! Paths, as far as a rule asks for them.

ghost use Rattle.std.specs.Prelude.{◌≡◌};
ghost use Rattle.er_paths.specs.Paths.{joins};
ghost use Rattle.er_history.specs.Edges.{up_to};
ghost use Rattle.er_clocks.specs.Clock.{Tells};

use er_clocks::Clocks;

/// Whether a path among the actions before this one leads from action i to action j.
pub(crate) fn leads_before(clocks: &Clocks, i: u32, j: u32, before: u32) -> bool
    ensures { Tells clocks.now (λ lists. result ≡ up_to before (joins lists) i j) }
{
    let earlier = j < before;
    earlier & clocks.joined(i, j)
}
