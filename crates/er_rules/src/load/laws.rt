//! What `against` comes to, record by record.

ghost use Rattle.er_rules.specs.load.Against.{LateLoadsLeadBack};

/// In a sound list, a record is out of order by the rules of loads exactly where the dispatches
/// that have begun say so.
#[tactic(auto, using(crate::proofs::load::LateLemmas::late_loads_lead_back))]
pub fn late_loads_lead_back()
    ensures { LateLoadsLeadBack }
{}
