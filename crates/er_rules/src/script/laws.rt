//! What `against` comes to, record by record.

ghost use Rattle.er_rules.specs.script.Against.{LateRecordsLeadBack};

/// In a sound list, a record is out of order by the rules of scripts exactly where the latest
/// events of its document say so.
#[tactic(auto, using(crate::proofs::script::LateLemmas::late_records_lead_back))]
pub fn late_records_lead_back()
    ensures { LateRecordsLeadBack }
{}
