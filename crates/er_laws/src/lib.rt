//! What later records leave of the chains and links of actions, what the events of tasks keep of
//! the records before them, which rule an explanation names, and what each version orders.
//!
//! Laws that join those of er_history: on the edges of longer lists with those of links and chains
//! (er_paths), on the stack with what a job keeps of it, on edges with the rule of a step
//! (er_pieces) and with the version. No state, and nothing stands on this crate. Each law is a
//! function with no parameters, whose contract is the law.
#![tactic(auto)]

pub mod rows;

ghost use Rattle.er_laws.specs.Kept.{ChainsAreKept, LinksAreKept};
ghost use Rattle.er_laws.specs.LeastRule.{NoRuleIsNamed, RulesAreLeast, StepsHaveLeastRules};
ghost use Rattle.er_laws.specs.Tasks.{DeclaredBeforeEvent, WithinIsUnfinished};
ghost use Rattle.er_laws.specs.Versions.{EdgesRemain, PathsRemain, RacesAreOfVersionOne};

/// Later records change no chain, place or entry of an earlier action.
pub fn chains_are_kept()
    ensures { ChainsAreKept }
{}

/// Later records change no link into an earlier action.
#[tactic(auto, using(crate::proofs::KeptLemmas::links_are_kept))]
pub fn links_are_kept()
    ensures { LinksAreKept }
{}

/// The piece that declared a message, an animation callback or a job comes before its event.
#[tactic(auto, using(crate::proofs::TaskLemmas::declared_before_event))]
pub fn declared_before_event()
    ensures { DeclaredBeforeEvent }
{}

/// A job began while those dispatches were on the stack that had begun and were not
/// finished before its record.
pub fn within_is_unfinished()
    ensures { WithinIsUnfinished }
{}

/// The rule that an explanation names makes the edge, and none of a lesser number does.
pub fn rules_are_least()
    ensures { RulesAreLeast }
{}

/// So it is of each step of an explanation.
pub fn steps_have_least_rules()
    ensures { StepsHaveLeastRules }
{}

/// No rule is named exactly where none makes an edge.
#[tactic(auto, using(crate::proofs::LeastLemmas::no_rule_without_edge))]
pub fn no_rule_without_edge()
    ensures { NoRuleIsNamed }
{}

/// Each edge of version 1 is one of each version.
pub fn edges_remain()
    ensures { EdgesRemain }
{}

/// Each path of version 1 is one of each version.
pub fn paths_remain()
    ensures { PathsRemain }
{}

/// The races of a version are those of version 1 that it leaves unordered, so it has none that
/// version 1 has not.
pub fn races_are_of_version_one()
    ensures { RacesAreOfVersionOne }
{}
