//! Rows: what the definitions of er_history say of lists of records, by all rules: the edges
//! between actions, and which records are refused; and lists that reach the counts of er_pieces.
//!
//! `specs/rows/` has the rows, a topic a file. What they say of edges and causes was found by a
//! program that shares nothing with this one: it asks every rule of every pair of events.
ghost use Rattle.er_laws.specs.rows.Apart.{PlainElementNotForLoad, MadeElementNotForLoad, CloseForLoad, OtherDocumentNotForLoad, WindowsApart, ElementAndWindowApart, TypesApart, LongerDelaySetFirst, ShorterDelaySetLast, DeferredOfTwoDocuments};
ghost use Rattle.er_laws.specs.rows.Full.{FullParse, FullScript, FullLoad, FullEload, LegalEload, FullTimer, FullTimerOfPieces, FullRequest, FullBegins, FullDispatch};
ghost use Rattle.er_laws.specs.rows.Late.{StepAfterDeferredScript, StepAfterDcl, StepAfterLoad, BlockingAfterStep, BlockingAfterDeferred, DeferredExchanged, ScriptAfterDcl, ScriptAfterLoad, ScriptAfterItsLoad, DclAfterLoad, HandlerAfterGreaterGroup};
ghost use Rattle.er_laws.specs.rows.Nested.{SuspendedScript, CutShort, InAHandler, InAClose, InCallbacks};
ghost use Rattle.er_laws.specs.rows.Random.{FirstPage, SecondPage, ThirdPage, FourthPage, FifthPage, SixthPage, SeventhPage, EighthPage, NinthPage, TenthPage, EleventhPage, TwelfthPage};
ghost use Rattle.er_laws.specs.rows.Realistic.{RealisticPage};
ghost use Rattle.er_laws.specs.rows.Timers.{FirstTimers, SecondTimers, ThirdTimers, FourthTimers};
ghost use Rattle.er_laws.specs.rows.Tasks.{JobsOfTwoPieces, FirstTasks, SecondTasks, ThirdTasks};

/// The edges of a page as it is met.
#[tactic(auto, using(crate::proofs::rows::Computed::realistic_page))]
pub fn realistic_page()
    ensures { RealisticPage }
{}

/// The edges where inline dispatches are nested.
#[tactic(auto, using(crate::proofs::rows::Computed::inline_dispatches))]
pub fn inline_dispatches()
    ensures suspended_script { SuspendedScript }
    ensures cut_short { CutShort }
    ensures in_a_handler { InAHandler }
    ensures in_a_close { InAClose }
    ensures in_callbacks { InCallbacks }
{}

/// Which first load events rule 11 counts.
#[tactic(auto, using(crate::proofs::rows::Computed::closes_for_load))]
pub fn closes_for_load()
    ensures plain_element_not_for_load { PlainElementNotForLoad }
    ensures made_element_not_for_load { MadeElementNotForLoad }
    ensures close_for_load { CloseForLoad }
    ensures other_document_not_for_load { OtherDocumentNotForLoad }
{}

/// Which targets rule 17 takes for one.
#[tactic(auto, using(crate::proofs::rows::Computed::targets_apart))]
pub fn targets_apart()
    ensures windows_apart { WindowsApart }
    ensures element_and_window_apart { ElementAndWindowApart }
    ensures types_apart { TypesApart }
{}

/// Which timeouts and deferred scripts are in no order.
#[tactic(auto, using(crate::proofs::rows::Computed::callbacks_apart))]
pub fn callbacks_apart()
    ensures longer_delay_set_first { LongerDelaySetFirst }
    ensures shorter_delay_set_last { ShorterDelaySetLast }
    ensures deferred_of_two_documents { DeferredOfTwoDocuments }
{}

/// Lists that reach the most pieces that the rules of parsing, scripts and loads hand.
#[tactic(auto, using(crate::proofs::rows::Computed::full_pages))]
pub fn full_pages()
    ensures full_parse { FullParse }
    ensures full_script { FullScript }
    ensures full_load { FullLoad }
    ensures full_eload { FullEload }
    ensures legal_eload { LegalEload }
{}

/// Lists that reach the most pieces that the rules of timeouts, requests and dispatches hand.
#[tactic(auto, using(crate::proofs::rows::Computed::full_callbacks))]
pub fn full_callbacks()
    ensures full_timer { FullTimer }
    ensures full_timer_of_pieces { FullTimerOfPieces }
    ensures full_request { FullRequest }
    ensures full_begins { FullBegins }
    ensures full_dispatch { FullDispatch }
{}

/// Which parse steps are out of order.
#[tactic(auto, using(crate::proofs::rows::Computed::late_steps))]
pub fn late_steps()
    ensures step_after_deferred_script { StepAfterDeferredScript }
    ensures step_after_dcl { StepAfterDcl }
    ensures step_after_load { StepAfterLoad }
{}

/// Which runs of scripts are out of order.
#[tactic(auto, using(crate::proofs::rows::Computed::late_scripts))]
pub fn late_scripts()
    ensures blocking_after_step { BlockingAfterStep }
    ensures blocking_after_deferred { BlockingAfterDeferred }
    ensures deferred_exchanged { DeferredExchanged }
    ensures script_after_dcl { ScriptAfterDcl }
    ensures script_after_load { ScriptAfterLoad }
    ensures script_after_its_load { ScriptAfterItsLoad }
{}

/// Which begins and handlers of dispatches are out of order.
#[tactic(auto, using(crate::proofs::rows::Computed::late_dispatches))]
pub fn late_dispatches()
    ensures dcl_after_load { DclAfterLoad }
    ensures handler_after_greater_group { HandlerAfterGreaterGroup }
{}

/// The edges of random pages, and the causes of records behind them.
#[tactic(auto, using(crate::proofs::rows::Computed::random_pages))]
pub fn random_pages()
    ensures first_page { FirstPage }
    ensures second_page { SecondPage }
    ensures third_page { ThirdPage }
    ensures fourth_page { FourthPage }
    ensures fifth_page { FifthPage }
    ensures sixth_page { SixthPage }
{}

/// The same of six more.
#[tactic(auto, using(crate::proofs::rows::Computed::more_random_pages))]
pub fn more_random_pages()
    ensures seventh_page { SeventhPage }
    ensures eighth_page { EighthPage }
    ensures ninth_page { NinthPage }
    ensures tenth_page { TenthPage }
    ensures eleventh_page { EleventhPage }
    ensures twelfth_page { TwelfthPage }
{}

/// The edges of random pages with many timeouts, in version 2.
#[tactic(auto, using(crate::proofs::rows::Computed::random_timers))]
pub fn random_timers()
    ensures first_timers { FirstTimers }
    ensures second_timers { SecondTimers }
    ensures third_timers { ThirdTimers }
    ensures fourth_timers { FourthTimers }
{}

/// Which jobs rule 30 counts.
#[tactic(auto, using(crate::proofs::rows::Computed::jobs_of_two_pieces))]
pub fn jobs_before_callbacks()
    ensures { JobsOfTwoPieces }
{}

/// The edges of random pages with many messages, animation callbacks and jobs, in version 3.
#[tactic(auto, using(crate::proofs::rows::Computed::random_tasks))]
pub fn random_tasks()
    ensures first_tasks { FirstTasks }
    ensures second_tasks { SecondTasks }
    ensures third_tasks { ThirdTasks }
{}
