//! Whether the basis words of an answer have their own rows.

ghost use Rattle.std.specs.Prelude.{◌≡◌, ◌↔◌, IsTrue, MatchOption};
ghost use Rattle.ve_theory.specs.Combinations.{unit};
ghost use Rattle.ve_theory.specs.Verdicts.{BasisWordFailsFirst};
ghost use Rattle.ve_matrix.specs.Answers.{AnswerFits, IsAnswerValue, answer_of};
ghost use Rattle.ve_check.specs.Failures.{HaveOwnRows, RelatorsVanish, SubmoduleRelationsVanish};
ghost use Rattle.ve_check.specs.OriginRows.{HasRow, row_by_origin};

use ve_matrix::Answer;
use ve_pres::Presentation;
use ve_table::Origin;
use ve_theory::elements::{reduced_lists_are_unique, sums_extend};
use ve_vec::{Sparse, Term};

/// The first basis word whose value isn't its own unit row.
pub(crate) fn failing_word(presentation: &Presentation, answer: &Answer) -> Option<u32>
    requires check { AnswerFits presentation.now.presentation answer.now }
    requires relators { RelatorsVanish presentation.now.presentation (answer_of answer.now).action }
    requires submodule { SubmoduleRelationsVanish presentation.now.presentation (answer_of answer.now).action }
    ensures { MatchOption result
        (HaveOwnRows presentation.now.presentation (answer_of answer.now).action)
        (BasisWordFailsFirst presentation.now.presentation (answer_of answer.now)) }
{
    sums_extend();
    reduced_lists_are_unique();
    presentation.field().has_prime();
    for place in 0..answer.basis.len() as u32 {
        // Earlier words have their own rows, so the value of this one is a row of the answer.
        let row = row_of(answer, answer.basis[place as usize]);
        if !is_unit(row, place) {
            return Some(place);
        }
    }
    None
}

/// The row of a generator, or of a basis vector times a letter.
fn row_of(answer: &Answer, origin: Origin) -> &Sparse
    requires answer { IsAnswerValue answer.now }
    requires origin { HasRow answer.now origin }
    ensures { result.now ≡ row_by_origin (answer_of answer.now).action origin }
{
    match origin {
        Origin::Root(root) => &answer.images[usize::from(root)],
        Origin::Child { parent, letter } => answer.matrices[usize::from(letter)].row(parent),
    }
}

/// Whether a vector is the unit vector of a place.
fn is_unit(vector: &Sparse, place: u32) -> bool
    ensures { IsTrue result ↔ (vector.now ≡ unit place) }
{
    vector.len() == 1 && vector.term(0) == (Term { id: place, coef: 1 })
}
