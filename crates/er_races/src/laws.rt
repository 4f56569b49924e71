//! Laws: what the numbers of the races are. Each is a function with no parameters, whose
//! contract is the law.

ghost use Rattle.std.specs.Prelude.{ℕ, Bool, All, List};
ghost use Rattle.er_access.specs.Kept.{Kept};
ghost use Rattle.er_races.specs.Races.{races_of, races_by, ArePairs, IsWithin};

/// The numbers of the races are those of the candidates without a path, in the order of pairs.
pub fn numbers_are_pairs()
    ensures { (joined : ℕ → ℕ → Bool) (accesses : List Kept)
        → ArePairs accesses (races_of joined accesses) (races_by joined accesses) }
{}

/// They are numbers of accesses, the lesser first.
pub fn numbers_are_within()
    ensures { (joined : ℕ → ℕ → Bool) (accesses : List Kept)
        → All (IsWithin accesses) (races_of joined accesses) }
{}
