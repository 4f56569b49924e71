//! Laws: the tests of the definitions say what they are named for. Each is a function with no
//! parameters, whose contract is the law.

ghost use Rattle.std.specs.Prelude.{◌≡◌};
ghost use Rattle.std.specs.Bool.{Decides};
ghost use Rattle.er_access.specs.Kept as spec;
ghost use Rattle.er_trace.specs.declared.record.Loc as locations;

#[tactic(auto, using(crate::proofs::LocationLemmas::same_loc_decides))]
pub fn locations_are_told_apart()
    ensures { (a b : locations.Loc) → Decides (spec.same_loc a b) (a ≡ b) }
{}

#[tactic(auto, using(crate::proofs::LocatedLemmas::repeats_decides))]
pub fn repeats_are_told()
    ensures { (x y : spec.Kept) → Decides (spec.repeats x y)
        (((x.loc ≡ y.loc) × (x.mode ≡ y.mode)) × (y.action ≡ x.action)) }
{}
