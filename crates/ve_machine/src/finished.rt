//! Finished tables.

ghost use Rattle.ve_machine.specs.Laws.{StaysFinished};

/// A finished table stays finished where its rows are resolved and its dead ids dropped.
pub fn stays_finished()
    ensures { StaysFinished }
{
    ve_theory::levels::finished_levels_settle();
}
