//! A law over the definitions. It is a function with no parameters, whose contract is the law.

ghost use Rattle.er_reasons.specs.Read.{EventsAreAsRead};

/// Where naming refuses no record, an event is what the record of its first piece and the
/// whole list say.
#[tactic(auto, using(crate::proofs::ReadLemmas::events_are_as_read))]
pub fn events_are_as_read()
    ensures { EventsAreAsRead }
{}
