//! What `against` comes to, record by record.

ghost use Rattle.er_path_rules.specs.timer.Against.{TimersAreNeverLate};

/// No record is out of order by the rules of timers.
#[tactic(auto, using(er_history::proofs::OrderLemmas::timer_rules_never_lead_back))]
pub fn timers_are_never_late()
    ensures { TimersAreNeverLate }
{}
