//! What `against` comes to, record by record.

ghost use Rattle.er_path_rules.specs.task.Against.{TasksAreNeverLate};

/// No record is out of order by the rules of tasks.
#[tactic(auto, using(er_history::proofs::OrderLemmas::task_rules_never_lead_back))]
pub fn tasks_are_never_late()
    ensures { TasksAreNeverLate }
{}
