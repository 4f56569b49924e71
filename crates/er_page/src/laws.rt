//! What holds of the lists that pages stand for. Each law is a function with no parameters, whose
//! contract is the law.

ghost use Rattle.er_page.specs.Accepted.{AcceptedListsAreNamed};

/// Naming refuses no record of an accepted list.
#[tactic(auto, using(crate::proofs::AcceptedLemmas::accepted_named))]
pub fn accepted_lists_are_named()
    ensures { AcceptedListsAreNamed }
{}
