//! Laws of the definitions that the contracts cite. Each is a function that does nothing, whose
//! contract is the law.

ghost use Rattle.std.specs.Prelude.{◌≡◌, ℕ, List};
ghost use Rattle.er_words.specs.Words.{Asks};

use crate::commands::Asked;

/// No words ask for two commands.
#[tactic(auto, using(crate::proofs::TableLemmas::one_command))]
pub fn one_command()
    ensures { (words : List (List ℕ)) (c d : Asked) → Asks words c → Asks words d → c ≡ d }
{}
