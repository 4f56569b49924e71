//! Why a path leads from one action to another.

ghost use Rattle.er_pieces.specs.steps.Laws.{LinksAreEdges, RulesAreEdges, RulesAreListed, StepsFollowLinks};
ghost use Rattle.er_pieces.specs.steps.Rows.{WorkedSteps};

/// There is a rule exactly where there is an edge.
#[tactic(auto, using(crate::proofs::steps::Rules::rules_are_edges))]
pub fn rules_are_edges()
    ensures { RulesAreEdges }
{}

/// The same by the numbers of the actions.
#[tactic(auto, using(crate::proofs::steps::Rules::rules_are_listed))]
pub fn rules_are_listed()
    ensures { RulesAreListed }
{}

/// Every link is an edge, and so has a rule.
pub fn links_are_edges()
    ensures { LinksAreEdges }
{}

/// Where there is a path, the steps lead from the one action to the other, each by a link
/// with its rule.
pub fn steps_follow_links()
    ensures { StepsFollowLinks }
{}

/// Small lists with the steps between two actions.
pub fn worked_steps()
    ensures { WorkedSteps }
{}
