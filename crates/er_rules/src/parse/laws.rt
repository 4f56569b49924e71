//! What `against` comes to, record by record.

ghost use Rattle.er_rules.specs.parse.Against.{ParsingIsNeverLate};

/// No record is out of order by the rules of parsing.
#[tactic(auto, using(er_history::proofs::OrderLemmas::parse_rules_never_lead_back))]
pub fn parsing_is_never_late()
    ensures { ParsingIsNeverLate }
{}
