//! The pieces of events: how they follow one another where dispatches are nested, and which of them
//! stand for all that must come before a record.
//!
//! Beside them, why a path leads from one action to another (`steps`).
//!
//! Definitions and their laws; no state. What each family of rules hands for a record is a list in
//! `specs/HandedPieces.antt`: latest pieces alone. The laws say that these are sources of edges,
//! and enough of them, for every table that has the steady rules: those that are the same in every
//! version of the format.
#![tactic(auto)]

pub mod stack;
pub mod steps;

ghost use Rattle.er_history.specs.Rules.{rules};
ghost use Rattle.er_trace.specs.declared.version.Version.{Version};
ghost use Rattle.er_pieces.specs.AnyTimers.{HandsTimersBy};
ghost use Rattle.er_pieces.specs.Counts.{ParseHandsAtMost, ScriptHandsAtMost, LoadHandsAtMost, TimerHandsAtMost, RequestHandsAtMost, DispatchHandsAtMost};
ghost use Rattle.er_pieces.specs.Enough.{EnoughParse, EnoughScript, EnoughLoad, EnoughDispatch, EnoughTimer, EnoughRequest, EnoughTask, EnoughPieces, HasSteady, NestedFactsHold};
ghost use Rattle.er_pieces.specs.Hands.{HandsParse, HandsScript, HandsLoad, HandsTimer, HandsRequest, HandsTask, DispatchHandsSources, DispatchHandsNothing};
ghost use Rattle.er_pieces.specs.Together.{SoundListsAreSteady, AllHand, HandedStayEnough, HandedAreBelow, HandsDispatches};

/// Given the two laws of nested pieces, the latest pieces that each family of rules hands suffice.
#[tactic(auto, using(crate::proofs::Suffice::parsing_and_loading_suffice))]
pub fn latest_pieces_of_parsing_and_loading_suffice()
    ensures parsing { EnoughParse }
    ensures scripts { EnoughScript }
    ensures loads { EnoughLoad }
{}

/// The same for dispatches, timers and requests.
#[tactic(auto, using(crate::proofs::Suffice::events_suffice))]
pub fn latest_pieces_of_events_suffice()
    ensures dispatches { EnoughDispatch }
    ensures timers { EnoughTimer }
    ensures requests { EnoughRequest }
    ensures tasks { EnoughTask }
{}

/// The pieces that the rules of dispatches hand suffice for the two rules on pieces.
#[tactic(auto, using(crate::proofs::EnoughPieces::enough_pieces))]
pub fn handed_pieces_suffice_around_inline_dispatches()
    ensures { EnoughPieces }
{}

/// The table of all rules of a version has those that are the same in every version.
pub fn all_rules_have_the_steady_ones()
    ensures { (v : Version) → HasSteady (rules v) }
{}

/// What is handed is sources too, and nothing for a record that begins no action.
pub fn latest_pieces_of_parsing_and_loading_are_handed()
    ensures parsing { HandsParse }
    ensures scripts { HandsScript }
    ensures loads { HandsLoad }
{}

/// The same for dispatches, timers and requests.
#[tactic(auto, using(crate::proofs::HandsDispatch::dispatch_hands_nothing))]
pub fn latest_pieces_of_events_are_handed()
    ensures dispatches { DispatchHandsSources }
    ensures nothing { DispatchHandsNothing }
    ensures timers { HandsTimer }
    ensures requests { HandsRequest }
    ensures tasks { HandsTask }
{}

/// The two laws of nested pieces: the source of an edge to the piece that `back` begins has a path
/// to the running action, and close pieces of one target and type are joined in recorded order.
pub fn nested_facts_hold()
    ensures { NestedFactsHold }
{}

/// The latest pieces that the rules of timers hand are sources and enough, by whatever rule a
/// version has in place of rule 19.
pub fn latest_pieces_of_timers_are_handed_in_each_version()
    ensures { HandsTimersBy }
{}

/// No family hands more pieces for a record than its count.
#[tactic(auto, using(crate::proofs::CountLaws::parsing_and_loading_hand_at_most))]
pub fn few_pieces_of_parsing_and_loading_are_handed()
    ensures parsing { ParseHandsAtMost }
    ensures scripts { ScriptHandsAtMost }
    ensures loads { LoadHandsAtMost }
{}

/// The same for dispatches, timers and requests.
#[tactic(auto, using(crate::proofs::CountLaws::events_hand_at_most))]
pub fn few_pieces_of_events_are_handed()
    ensures dispatches { DispatchHandsAtMost }
    ensures timers { TimerHandsAtMost }
    ensures requests { RequestHandsAtMost }
{}

/// The pieces that the rules of dispatches hand are sources and enough, for edges between events
/// and for those between pieces.
pub fn latest_pieces_of_dispatches_are_handed()
    ensures { HandsDispatches }
{}

/// What the seven families of rules hand, one behind the other, are sources of edges by all rules,
/// and enough of them: so the paths over the handed numbers are those over all edges.
pub fn seven_groups_together_are_enough()
    ensures steady { SoundListsAreSteady }
    ensures handed { AllHand }
    ensures enough { HandedStayEnough }
    ensures below { HandedAreBelow }
{}
