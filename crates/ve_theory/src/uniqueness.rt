//! Lists of words, sizes, finished levels, closing levels, endings and answers: at most one of each.

ghost use Rattle.ve_theory.specs.Laws.{EndingsExclude, FinishedLevelsAreUnique, ListsAreUnique};

/// There is at most one rising list of given words, one size of a level, one closing level and one answer.
pub fn lists_are_unique()
    ensures { ListsAreUnique }
{}

/// Actions that are finished at one level have one basis, and the same rows where the level has them.
pub fn finished_levels_are_unique()
    ensures { FinishedLevelsAreUnique }
{}

/// An enumeration is outgrown at one level at most, and not where it is finished.
pub fn endings_exclude_each_other()
    ensures { EndingsExclude }
{}
