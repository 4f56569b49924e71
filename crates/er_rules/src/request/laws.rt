//! What `against` comes to, record by record.

ghost use Rattle.er_rules.specs.request.Against.{RequestsAreNeverLate};

/// No record is out of order by the rule of requests.
#[tactic(auto, using(er_history::proofs::OrderLemmas::request_rules_never_lead_back))]
pub fn requests_are_never_late()
    ensures { RequestsAreNeverLate }
{}
