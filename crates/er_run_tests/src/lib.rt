//! Tests that cross crates: the worked rows through `run`, as tables, and the same rows as laws of
//! the definitions.
#![tactic(auto)]

ghost use Rattle.er_run_tests.specs.Rows.{Causes, Orders, UnknownTimeout, NotAScript, RunTooLate};

#[cfg(test)]
mod coverage;
#[cfg(test)]
mod dispatches;
#[cfg(test)]
mod endless;
#[cfg(test)]
mod every_fault;
#[cfg(test)]
mod faults;
#[cfg(test)]
mod first_path;
#[cfg(test)]
mod gates;
#[cfg(test)]
mod grouped;
#[cfg(test)]
mod inputs;
#[cfg(test)]
mod large;
#[cfg(test)]
mod limits;
#[cfg(test)]
mod lines;
#[cfg(test)]
mod loads;
#[cfg(test)]
mod modes;
#[cfg(test)]
mod naming;
#[cfg(test)]
mod orders;
#[cfg(test)]
mod pieces;
#[cfg(test)]
mod realistic;
#[cfg(test)]
mod requests;
#[cfg(test)]
mod row;
pub mod rows;
#[cfg(test)]
mod scripts;
#[cfg(test)]
mod shards;
#[cfg(test)]
mod tables;
#[cfg(test)]
mod tasks;
#[cfg(test)]
mod through;
#[cfg(test)]
mod timers;
#[cfg(test)]
mod words;

/// The causes of single records, as the definitions give them.
#[tactic(auto, using(crate::proofs::Computed::worked_causes))]
pub fn worked_causes()
    ensures naming { Causes }
    ensures order { Orders }
{}

/// The first illegal line of small inputs, as the definitions give it.
pub fn worked_refusals()
    ensures unknown_timeout { UnknownTimeout }
    ensures not_a_script { NotAScript }
    ensures run_too_late { RunTooLate }
{}
