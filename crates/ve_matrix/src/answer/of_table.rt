//! Answers of finished tables.

ghost use Rattle.std.specs.Prelude.{◌≡◌, IfOk};
ghost use Rattle.ve_theory.specs.Levels.{Closes};
ghost use Rattle.ve_theory.specs.Answers.{IsModuleAnswer};
ghost use Rattle.ve_theory.specs.Laws.{DecidesModule};
ghost use Rattle.ve_table.specs.Tables.{presented};
ghost use Rattle.ve_machine.specs.Finished.{IsPacked};
ghost use Rattle.ve_matrix.specs.Answers.{IsAnswerValue, answer_of};

use super::copies::copy_table;
use super::moves::move_table;
use crate::Answer;
use std::alloc::Global;
use ve_settle::Finished;
use ve_theory::derivations::levels_grow;
use ve_theory::levels::{closing_levels_settle, finished_levels_settle};
use ve_theory::order::reaches_are_bounded;
use ve_theory::quotients::answers_decide;
use ve_word::Memory;

impl Answer {
    /// The answer of a packed table whose level closes. Its rows are copied.
    pub fn of(alloc: Global, finished: &Finished) -> Result<Answer, Memory>
        requires packed { IsPacked finished.now }
        requires closes { Closes (presented finished.now) finished.now.level }
        ensures answer { IfOk result (λ A. IsModuleAnswer (presented finished.now) (answer_of A)) }
        ensures level { IfOk result (λ A. A.closed ≡ finished.now.level) }
        ensures value { IfOk result IsAnswerValue }
        // An element is derived exactly where it evaluates to zero.
        ensures decides { IfOk result (λ A. DecidesModule (presented finished.now) (answer_of A).action) }
    {
        levels_grow();
        reaches_are_bounded();
        finished_levels_settle();
        closing_levels_settle();
        answers_decide();
        finished.is_finished();
        let answer = copy_table(alloc, finished.table())?;
        Ok(answer)
    }

    /// The answer of a packed table whose level closes. Its rows are taken.
    pub fn from_finished(alloc: Global, finished: Finished) -> Result<Answer, Memory>
        requires packed { IsPacked finished }
        requires closes { Closes (presented finished) finished.level }
        ensures answer { IfOk result (λ A. IsModuleAnswer (presented finished) (answer_of A)) }
        ensures level { IfOk result (λ A. A.closed ≡ finished.level) }
        ensures value { IfOk result IsAnswerValue }
        // An element is derived exactly where it evaluates to zero.
        ensures decides { IfOk result (λ A. DecidesModule (presented finished) (answer_of A).action) }
    {
        levels_grow();
        reaches_are_bounded();
        finished_levels_settle();
        closing_levels_settle();
        answers_decide();
        finished.is_finished();
        let answer = move_table(alloc, finished.into_table())?;
        Ok(answer)
    }
}
