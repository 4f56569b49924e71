//! What a list of records says: its actions, the rules between them, paths, and which records
//! naming, order and room refuse.
//! Definitions and their laws; no state. Each law is a function with no parameters, whose contract
//! is the law. Beside them `firsts`, tables from numbers to what was noted first.
#![tactic(auto)]

pub mod firsts;

ghost use Rattle.er_history.specs.Laws.{ActionsAreKept, ActionsAreNumbered, EdgesAreEdges, EdgesGoForward, EdgesJoinActions, EdgesStay, EntriesAreCounted, EventsBeginBefore, EventsHaveFirstPieces, PathsLeadOverEdges, PathsLeadOverActions, PathsStay};
ghost use Rattle.er_history.specs.Facts.{FactsAreExact, FactsStay};
ghost use Rattle.er_history.specs.Rules.{parse_rules, timer_rules, request_rules, task_rules};
ghost use Rattle.er_history.specs.Records.{TasksAreOfVersionThree};
ghost use Rattle.er_history.specs.Rows.{EachRule, FramesThatScriptsMade, JobsAndCallbacks, JobsInDispatches, LateRecords, LaterLoadEvent, MisplacedJobs, NestedDispatches, RulesAreNumbered, TasksOfLaterPieces, TimersOfPieces, TimersOfStepsInThree, TimersOnTimers};
ghost use Rattle.er_history.specs.Sound.{NeverLeadBack, SoundListsAreNamed};
ghost use Rattle.er_history.specs.Unfinished.{StackIsUnfinished};
ghost use Rattle.er_history.specs.Versions.{CausesAreShared, PathsBeforeSuffice, SetBeforeCallback, SoundListsAreShared};
ghost use Rattle.er_trace.specs.declared.version.Version.{Version};

/// The actions are numbered in the order in which they begin.
#[tactic(auto, using(crate::proofs::HistoryLemmas::actions_are_numbered))]
pub fn actions_are_numbered()
    ensures { ActionsAreNumbered }
{}

/// A piece is of an event that begins with it, or has begun before.
#[tactic(auto, using(crate::proofs::HistoryLemmas::events_begin_before))]
pub fn events_begin_before()
    ensures { EventsBeginBefore }
{}

/// The event of an action is that of the action with its number, its first piece.
#[tactic(auto, using(crate::proofs::HistoryLemmas::events_have_first_pieces))]
pub fn events_have_first_pieces()
    ensures { EventsHaveFirstPieces }
{}

/// Later records leave the earlier actions as they are.
#[tactic(auto, using(crate::proofs::HistoryLemmas::actions_are_kept))]
pub fn actions_are_kept()
    ensures { ActionsAreKept }
{}

/// Each record has its entry.
#[tactic(auto, using(crate::proofs::HistoryLemmas::entries_are_counted))]
pub fn entries_are_counted()
    ensures { EntriesAreCounted }
{}

/// An edge leads from an earlier action to a later one.
#[tactic(auto, using(crate::proofs::HistoryLemmas::edges_go_forward))]
pub fn edges_go_forward()
    ensures { EdgesGoForward }
{}

/// The list of an action has another exactly where an edge leads from it.
#[tactic(auto, using(crate::proofs::HistoryLemmas::edges_are_edges))]
pub fn edges_are_edges()
    ensures { EdgesAreEdges }
{}

/// The lists have numbers of actions alone.
#[tactic(auto, using(crate::proofs::HistoryLemmas::edges_join_actions))]
pub fn edges_join_actions()
    ensures { EdgesJoinActions }
{}

/// A path is a list of steps, each by an edge.
#[tactic(auto, using(crate::proofs::HistoryLemmas::paths_lead_over_edges))]
pub fn paths_lead_over_edges()
    ensures { PathsLeadOverEdges }
{}

/// A path between two actions is a list of actions, each by an edge.
#[tactic(auto, using(crate::proofs::HistoryLemmas::paths_lead_over_actions))]
pub fn paths_lead_over_actions()
    ensures { PathsLeadOverActions }
{}

/// Later records change no list of an earlier action.
#[tactic(auto, using(crate::proofs::HistoryLemmas::edges_stay))]
pub fn edges_stay()
    ensures { EdgesStay }
{}

/// Later records change no path among the earlier actions.
#[tactic(auto, using(crate::proofs::HistoryLemmas::paths_stay))]
pub fn paths_stay()
    ensures { PathsStay }
{}

/// What a look-up found when an event began, it finds in the whole list too.
#[tactic(auto, using(crate::proofs::FactsLemmas::facts_stay))]
pub fn facts_stay()
    ensures { FactsStay }
{}

/// Where naming refuses no record, each fact that an event kept is the one that the whole
/// list gives.
#[tactic(auto, using(crate::proofs::ExactLemmas::facts_are_exact))]
pub fn facts_are_exact()
    ensures { FactsAreExact }
{}

/// Naming refuses no record of a sound list.
#[tactic(auto, using(crate::proofs::NamedLemmas::sound_lists_are_named))]
pub fn sound_lists_are_named()
    ensures { SoundListsAreNamed }
{}

/// The rules of parsing, timers and requests put no record out of order, in each version.
#[tactic(auto, using(crate::proofs::OrderLemmas::later_events_never_lead_back))]
pub fn later_events_never_lead_back()
    ensures parsing { NeverLeadBack parse_rules }
    ensures timers { (v : Version) → NeverLeadBack (timer_rules v) }
    ensures requests { NeverLeadBack request_rules }
    ensures tasks { NeverLeadBack task_rules }
{}

/// Whether a record has a cause, and a list is sound, does not depend on the version.
pub fn sound_lists_are_shared()
    ensures causes { CausesAreShared }
    ensures lists { SoundListsAreShared }
{}

/// The piece that set a timeout comes before the event of its callback.
pub fn set_before_callback()
    ensures { SetBeforeCallback }
{}

/// A rule that is told of the paths before an event holds exactly where it does by all paths.
pub fn paths_before_suffice()
    ensures { PathsBeforeSuffice }
{}

/// Where naming refuses no record, the stack has the numbers of the dispatches that have begun and
/// are not finished.
#[tactic(auto, using(crate::proofs::UnfinishedLemmas::stack_is_unfinished))]
pub fn stack_is_unfinished()
    ensures { StackIsUnfinished }
{}

/// The rules of tasks hold in version 3 alone.
pub fn tasks_are_of_version_three()
    ensures { TasksAreOfVersionThree }
{}

/// The rules between events have the numbers 1 to 21 and 24 to 31, in each version.
#[tactic(auto, using(crate::proofs::Computed::rules_are_numbered))]
pub fn rules_are_numbered()
    ensures { RulesAreNumbered }
{}

/// The edges of small lists that reach each rule and each kind of piece, and the causes of records
/// after another.
#[tactic(auto, using(crate::proofs::Computed::worked_edges))]
pub fn worked_edges()
    ensures rules { EachRule }
    ensures pieces { NestedDispatches }
    ensures later_rule { TimersOnTimers }
    ensures joined { TimersOfPieces }
    ensures tasks { JobsAndCallbacks }
    ensures jobs { JobsInDispatches }
    ensures later_pieces { TasksOfLaterPieces }
    ensures version_three { TimersOfStepsInThree }
    ensures made_frames { FramesThatScriptsMade }
    ensures load_events { LaterLoadEvent }
    ensures misplaced { MisplacedJobs }
    ensures late { LateRecords }
{}
