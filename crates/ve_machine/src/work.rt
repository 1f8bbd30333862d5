//! Tables at work within a level.

ghost use Rattle.ve_machine.specs.Laws.{NothingLeftIsFinished, OpeningsAreUnderWay, StaysUnderWay, TracingIsKnown};

use crate::forwards::resolutions_exist;

/// A table at the beginning of its level is under way.
pub fn openings_are_under_way()
    ensures { OpeningsAreUnderWay }
{}

/// A level stays under way where an id dies, and where a row is rewritten.
pub fn stays_under_way()
    ensures { StaysUnderWay }
{}

/// What is traced differs from the value of its job by what is known.
pub fn tracing_is_known()
    ensures { TracingIsKnown }
{}

/// Where nothing is left to do the level is finished.
pub fn nothing_left_is_finished()
    ensures { NothingLeftIsFinished }
{
    resolutions_exist();
    ve_theory::derivations::levels_are_closed();
    ve_theory::levels::finished_levels_settle();
}
