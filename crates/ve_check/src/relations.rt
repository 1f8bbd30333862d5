//! Whether the relations of a presentation vanish on an answer.

ghost use Rattle.std.specs.Prelude.{◌<◌, ◌↔◌, IfOk, IsTrue, MatchOption, length};
ghost use Rattle.ve_theory.specs.Presentations.{relators};
ghost use Rattle.ve_theory.specs.Answers.{RelatorVanishes, SubmoduleVanishes, dimension};
ghost use Rattle.ve_theory.specs.Verdicts.{RelatorFailsFirst, SubmoduleFailsFirst};
ghost use Rattle.ve_matrix.specs.Answers.{AnswerFits, answer_of};
ghost use Rattle.ve_check.specs.Failures.{IsFirstRow, RelatorsVanish, SubmoduleRelationsVanish, VanishesOnRows};

use ve_matrix::{Answer, answers_are_traced};
use ve_pres::Presentation;
use ve_theory::elements::reduced_lists_are_unique;
use ve_trace::laws::relations_are_own;
use ve_trace::trace_relator;
use ve_word::Memory;

/// The first relator that doesn't vanish on each basis row, and the first row on which it doesn't.
pub(crate) fn failing_relator(
    presentation: &Presentation,
    answer: &Answer,
) -> Result<Option<(u32, u32)>, Memory>
    requires { AnswerFits presentation.now.presentation answer.now }
    ensures { IfOk result (λ failure. MatchOption failure
        (RelatorsVanish presentation.now.presentation (answer_of answer.now).action)
        (λ f. RelatorFailsFirst presentation.now.presentation (answer_of answer.now) f.0 f.1)) }
{
    for number in 0..presentation.relator_count() {
        if let Some(row) = failing_row(presentation, answer, number)? {
            return Ok(Some((number, row)));
        }
    }
    Ok(None)
}

/// The first basis row on which a relator doesn't vanish.
fn failing_row(
    presentation: &Presentation,
    answer: &Answer,
    number: u32,
) -> Result<Option<u32>, Memory>
    requires check { AnswerFits presentation.now.presentation answer.now }
    requires number { number < length (relators presentation.now.presentation) }
    ensures { IfOk result (λ row. MatchOption row
        (VanishesOnRows presentation.now.presentation (answer_of answer.now).action number)
        (IsFirstRow presentation.now.presentation (answer_of answer.now).action number)) }
{
    for row in 0..answer.basis.len() as u32 {
        if !relator_vanishes(presentation, answer, number, row)? {
            return Ok(Some(row));
        }
    }
    Ok(None)
}

/// Whether a relator vanishes on a basis row.
fn relator_vanishes(
    presentation: &Presentation,
    answer: &Answer,
    number: u32,
    row: u32,
) -> Result<bool, Memory>
    requires check { AnswerFits presentation.now.presentation answer.now }
    requires number { number < length (relators presentation.now.presentation) }
    requires row { row < dimension (answer_of answer.now).action }
    ensures { IfOk result (λ vanishes. IsTrue vanishes
        ↔ RelatorVanishes presentation.now.presentation (answer_of answer.now).action number row) }
{
    answers_are_traced();
    relations_are_own();
    reduced_lists_are_unique();
    let alloc = *answer.basis.allocator();
    let relator = presentation.relator(number);
    let value = trace_relator(alloc, answer, &answer.field, row, relator)?;
    Ok(value.len() == 0)
}

/// The first submodule relation that doesn't vanish.
pub(crate) fn failing_sub(
    presentation: &Presentation,
    answer: &Answer,
) -> Result<Option<u32>, Memory>
    requires check { AnswerFits presentation.now.presentation answer.now }
    requires relators { RelatorsVanish presentation.now.presentation (answer_of answer.now).action }
    ensures { IfOk result (λ failure. MatchOption failure
        (SubmoduleRelationsVanish presentation.now.presentation (answer_of answer.now).action)
        (SubmoduleFailsFirst presentation.now.presentation (answer_of answer.now))) }
{
    for number in 0..presentation.sub_count() {
        if !sub_vanishes(presentation, answer, number)? {
            return Ok(Some(number));
        }
    }
    Ok(None)
}

/// Whether a submodule relation vanishes.
fn sub_vanishes(presentation: &Presentation, answer: &Answer, number: u32) -> Result<bool, Memory>
    requires check { AnswerFits presentation.now.presentation answer.now }
    requires number { number < length presentation.now.presentation.submodule }
    ensures { IfOk result (λ vanishes. IsTrue vanishes
        ↔ SubmoduleVanishes presentation.now.presentation (answer_of answer.now).action number) }
{
    relations_are_own();
    reduced_lists_are_unique();
    let value = answer.eval_free(presentation.sub(number))?;
    Ok(value.len() == 0)
}
