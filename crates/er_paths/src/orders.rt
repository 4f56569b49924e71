//! Orders of all actions.

ghost use Rattle.er_paths.specs.orders.Laws.{BothOrdersAreLawful, BothOrdersAreShown, LawfulOrdersKeepPaths, LinksDecide};
ghost use Rattle.er_paths.specs.orders.Rows.{WorkedLaws, WorkedOrders, WorkedSchedules};

/// Both orders of two actions that no path joins are lawful.
#[tactic(auto, using(crate::proofs::orders::Orders::both_orders_are_lawful))]
pub fn both_orders_are_lawful()
    ensures { BothOrdersAreLawful }
{}

/// In the one the first action stands directly before the second, in the other directly after it.
pub fn both_orders_are_shown()
    ensures { BothOrdersAreShown }
{}

/// An order is lawful exactly where no path leads back in it.
#[tactic(auto, using(crate::proofs::orders::Follows::lawful_orders_keep_paths))]
pub fn lawful_orders_keep_paths()
    ensures { LawfulOrdersKeepPaths }
{}

/// Whether an order keeps all paths, the links alone decide.
#[tactic(auto, using(crate::proofs::orders::Follows::links_decide))]
pub fn links_decide()
    ensures { LinksDecide }
{}

/// Small lists with their orders.
pub fn worked_orders()
    ensures orders { WorkedOrders }
    ensures schedules { WorkedSchedules }
    ensures laws { WorkedLaws }
{}
