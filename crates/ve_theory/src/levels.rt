//! Finished levels, closing levels, and how far up an enumeration can go.

ghost use Rattle.ve_theory.specs.Laws.{FinishedLevelsSettle, ClosingLevelsSettle, OpenLevelsAreBounded};

/// The words of a finished level are the normal ones, and it has the level's kernel.
pub fn finished_levels_settle()
    ensures { FinishedLevelsSettle }
{}

/// At a level that closes they are the least words, and it has the module's kernel.
pub fn closing_levels_settle()
    ensures { ClosingLevelsSettle }
{}

/// A level that fits a limit and doesn't close is not far up.
pub fn open_levels_are_bounded()
    ensures { OpenLevelsAreBounded }
{}
