//! Laws: what clocks that stand for a list tell of it. Each is a function with no parameters, whose
//! contract is the law.

ghost use Rattle.er_clocks.specs.Laws.{ClocksOfHanded, ClocksOfNewest, ClocksOfPaths, ClocksTellPaths};

/// What `before` answers is the path over each list that the clocks stand for.
pub fn clocks_tell_paths()
    ensures { ClocksTellPaths }
{}

/// Lists with the same paths have the same clocks.
pub fn clocks_of_paths()
    ensures { ClocksOfPaths }
{}

/// Where enough of the predecessors were handed, the clocks are those of the whole lists.
pub fn clocks_of_handed()
    ensures { ClocksOfHanded }
{}

/// Where enough of the newest action's predecessors were handed, the clocks are those of
/// its whole list.
pub fn clocks_of_newest()
    ensures { ClocksOfNewest }
{}
