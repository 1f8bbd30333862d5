//! The verdict on an answer.

ghost use Rattle.std.specs.Prelude.{◌≡◌, IfOk};
ghost use Rattle.ve_theory.specs.Answers.{IsQuotient};
ghost use Rattle.ve_matrix.specs.Answers.{IsAnswerValue, answer_of};
ghost use Rattle.ve_check.specs.Verdicts.{Says};

use crate::relations::{failing_relator, failing_sub};
use crate::shape::has_shape;
use crate::words::failing_word;
use ve_matrix::Answer;
use ve_pres::Presentation;
use ve_theory::quotients::relations_make_quotients;
use ve_word::Memory;

/// What is said of an answer: yes, or the first failure.
#[derive(Clone, Copy, Debug, PartialEq, Eq)]
pub enum Verdict {
    /// It is a quotient of the presented module, and each of its basis words has its own row.
    Yes,
    /// It fails.
    No(WhyNot),
}

/// The first failure of an answer. Numbers and rows count from 1.
#[derive(Clone, Copy, Debug, PartialEq, Eq)]
pub enum WhyNot {
    /// Its prime, its names or its number of generators differ from the presentation's.
    Shape,
    /// This relator is the first that doesn't vanish, and this basis row the first on which it doesn't.
    RelatorFails { number: u32, row: u32 },
    /// This submodule relation is the first that doesn't vanish.
    SubFails { number: u32 },
    /// This basis word is the first whose value isn't its own unit row.
    BasisWord { row: u32 },
}

/// What is said of an answer to a presentation. The shape comes first, then the relators, each on all basis rows, then the
/// submodule relations, then the basis words. The level of the answer isn't looked at.
///
/// Yes doesn't say that the answer is the whole module: one of dimension 0 always passes where its shape agrees.
pub fn check(presentation: &Presentation, answer: &Answer) -> Result<Verdict, Memory>
    requires { IsAnswerValue answer.now }
    ensures verdict { IfOk result (Says presentation.now.presentation (answer_of answer.now)) }
    ensures quotient { IfOk result (λ verdict. verdict ≡ Verdict.Yes
        → IsQuotient presentation.now.presentation (answer_of answer.now)) }
{
    presentation.is_valid();
    relations_make_quotients();
    if !has_shape(presentation, answer) {
        return Ok(Verdict::No(WhyNot::Shape));
    }
    if let Some((number, row)) = failing_relator(presentation, answer)? {
        return Ok(Verdict::No(WhyNot::RelatorFails {
            number: number + 1,
            row: row + 1,
        }));
    }
    if let Some(number) = failing_sub(presentation, answer)? {
        return Ok(Verdict::No(WhyNot::SubFails { number: number + 1 }));
    }
    if let Some(place) = failing_word(presentation, answer) {
        return Ok(Verdict::No(WhyNot::BasisWord { row: place + 1 }));
    }
    Ok(Verdict::Yes)
}
