//! Paths over lists of predecessors, on which happens-before rests, and what is made of
//! them: chains and links (`links`), and orders of all actions (`orders`). Definitions
//! and their laws; no state.
//!
//! The lists stand newest first, one an action. Each law is a function with no parameters, whose
//! contract is the law.
#![tactic(auto)]

pub mod links;
pub mod orders;

ghost use Rattle.er_paths.specs.Laws.{HandedPaths, PathsAreSteps, PathsCompose, PathsGoForward, PathsStand, PathsStay};

/// A path is a list of steps, each by an edge.
#[tactic(auto, using(crate::proofs::Paths::paths_are_steps))]
pub fn paths_are_steps()
    ensures { PathsAreSteps }
{}

/// A path and a path behind it are a path.
#[tactic(auto, using(crate::proofs::Paths::paths_compose))]
pub fn paths_compose()
    ensures { PathsCompose }
{}

/// Paths go forward, among the actions that there are.
#[tactic(auto, using(crate::proofs::Paths::paths_go_forward))]
pub fn paths_go_forward()
    ensures { PathsGoForward }
{}

/// An action joins itself.
#[tactic(auto, using(crate::proofs::Paths::paths_stand))]
pub fn paths_stand()
    ensures { PathsStand }
{}

/// Later lists change no path among the earlier.
#[tactic(auto, using(crate::proofs::Paths::paths_stay))]
pub fn paths_stay()
    ensures { PathsStay }
{}

/// Where the lists hold enough of the predecessors, the paths are the same.
#[tactic(auto, using(crate::proofs::Paths::handed_paths))]
pub fn handed_paths()
    ensures { HandedPaths }
{}
