//! Where seats have nothing left to do.

ghost use Rattle.ve_machine.specs.SharedLaws.{FinishedTablesAreUnique, QuiescentTablesAreFinished};

use crate::work::nothing_left_is_finished;

/// Where nothing is left to do, and what is done is covered, the table is finished.
pub fn quiescent_tables_are_finished()
    ensures { QuiescentTablesAreFinished }
{
    nothing_left_is_finished();
}

/// Finished tables of one level have the same live words and, on them, the same rows.
pub fn finished_tables_are_unique()
    ensures { FinishedTablesAreUnique }
{
    ve_theory::uniqueness::finished_levels_are_unique();
}
