//! What is derived, within levels and at all.

ghost use Rattle.ve_theory.specs.Laws.{LevelsAreClosed, LevelsGrow};

/// What is derived within a level is derived within each higher one.
pub fn levels_grow()
    ensures { LevelsGrow }
{}

/// What is derived within a level is closed under sums, scalings and letters, and so are the relations that are due by it.
pub fn levels_are_closed()
    ensures { LevelsAreClosed }
{}
