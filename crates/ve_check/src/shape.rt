//! Whether an answer is over the field, the letters and the generators of a presentation.

ghost use Rattle.std.specs.Prelude.{◌≡◌, ◌↔◌, IsTrue};
ghost use Rattle.ve_theory.specs.Answers.{HasShape};
ghost use Rattle.ve_matrix.specs.Answers.{answer_of};

use ve_matrix::Answer;
use ve_pres::Presentation;
use ve_word::Names;

/// Whether prime, names and number of generators are the presentation's.
pub(crate) fn has_shape(presentation: &Presentation, answer: &Answer) -> bool
    ensures { IsTrue result ↔ HasShape presentation.now.presentation (answer_of answer.now) }
{
    answer.field == *presentation.field()
        && answer.roots == presentation.roots()
        && are_same_names(&answer.names, presentation.names())
}

/// Whether the names are the same, in the same order.
fn are_same_names(names: &Names, others: &Names) -> bool
    ensures { IsTrue result ↔ (names.now ≡ others.now) }
{
    if names.count() != others.count() {
        return false;
    }
    for letter in 0..names.count() {
        if names.name(letter) != others.name(letter) {
            return false;
        }
    }
    true
}
