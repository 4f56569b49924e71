//! Laws of the definitions that the contracts cite. Each is a function that does nothing, whose
//! contract is the law.

ghost use Rattle.er_run.specs.Causes.{AreNumbered};
ghost use Rattle.er_run.specs.Laws.{CutTrace, EachRaceNamesACover, EveryAnswer, KeptInOrder, LongerInput, OneAnswer, OrdersKeepRules, RacesInOrder};

/// No byte string has two outcomes, and no two texts are due for it.
pub fn one_answer()
    ensures { OneAnswer }
{}

/// No byte string is without an outcome.
pub fn every_answer()
    ensures { EveryAnswer }
{}

/// A refusal other than `no-end` is that of every longer input.
pub fn longer_input()
    ensures { LongerInput }
{}

/// To each command, the bytes of a legal trace that lack some of the last are refused for `no-end`,
/// at the line after their last LF.
pub fn cut_trace()
    ensures { CutTrace }
{}

/// The distinct accesses are in the order of their lines, each once.
pub fn kept_in_order()
    ensures { KeptInOrder }
{}

/// The races are in the order of their two lines, each once.
pub fn races_in_order()
    ensures { RacesInOrder }
{}

/// Each race names the first group that covers it, and there is one.
pub fn each_race_names_a_cover()
    ensures { EachRaceNamesACover }
{}

/// No edge leads back in either order of the actions of a race: both orders keep all rules, and in
/// each the two actions are neighbors.
pub fn orders_keep_rules()
    ensures { OrdersKeepRules }
{}

/// The causes of refusals are numbered from 1 to 19, each with a number of its own.
pub fn causes_are_numbered()
    ensures { AreNumbered }
{}
