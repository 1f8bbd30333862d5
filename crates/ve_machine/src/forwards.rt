//! Forwards, and vectors that they resolve.

ghost use Rattle.ve_machine.specs.Laws.{DeathsKeep, ForwardingsAreASpace, ResolutionsExist};

/// Combinations of forwardings are forwardings.
pub fn forwardings_are_a_space()
    ensures { ForwardingsAreASpace }
{}

/// What was a forwarding, or known, stays so where a live id dies.
pub fn deaths_keep()
    ensures { DeathsKeep }
{}

/// Each vector of a sound table's ids has a resolved form.
pub fn resolutions_exist()
    ensures { ResolutionsExist }
{}
