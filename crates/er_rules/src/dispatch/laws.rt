//! What `against` comes to, record by record.

ghost use Rattle.er_rules.specs.dispatch.Against.{LateHandlersLeadBack};

/// A record is out of order by the rules of dispatches exactly where it runs a handler behind one
/// of a greater group of the dispatch.
#[tactic(auto, using(crate::proofs::dispatch::LateLemmas::late_handlers_lead_back))]
pub fn late_handlers_lead_back()
    ensures { LateHandlersLeadBack }
{}
