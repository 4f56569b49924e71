//! Laws on classes, covers and groups. Each is a function with no parameters, whose
//! contract is the law.

ghost use Rattle.er_cover.specs.Laws.{ClassesAreOnce, CoveredIsWider, EachIsCovered, EachNamesACover, EachNamesAGroup, GroupsInOrder, MaximalIsUncovered};
ghost use Rattle.er_cover.specs.Rows.{WorkedRows};

/// A class that is covered by another class is wider.
pub fn covered_is_wider()
    ensures { CoveredIsWider }
{}

/// Every class is covered by a maximal class.
pub fn each_is_covered()
    ensures { EachIsCovered }
{}

/// A class is maximal exactly where whatever covers it is the class itself.
pub fn maximal_is_uncovered()
    ensures { MaximalIsUncovered }
{}

/// The classes of races are those of each race, and none is there twice.
pub fn classes_are_once()
    ensures { ClassesAreOnce }
{}

/// The groups stand in the order of their representatives.
pub fn groups_in_order()
    ensures { GroupsInOrder }
{}

/// Each race names a group, and this covers it.
pub fn each_names_a_group()
    ensures within { EachNamesAGroup }
    ensures covers { EachNamesACover }
{}

/// Small lists of predecessors with the groups of some races.
pub fn worked_rows()
    ensures { WorkedRows }
{}
