//! The row vectors of words and elements.

ghost use Rattle.std.specs.Prelude.{◌<◌, All, IfOk, nat_eq};
ghost use Rattle.ve_theory.specs.Combinations.{IsReducedOf};
ghost use Rattle.ve_theory.specs.Answers.{IsRow, dimension, evaluation, word_row};
ghost use Rattle.ve_matrix.specs.Answers.{IsAnswerValue, answer_of};
ghost use Rattle.ve_matrix.specs.Evaluating.{AnswersAreTraced, IsAnswerWord};

use crate::Answer;
use ve_pres::FreeMod;
use ve_trace::{trace_sub, trace_word};
use ve_vec::{Rows, Sparse};
use ve_word::{Memory, Word};

impl Answer {
    /// The row vector of a word: its generator's row times the matrices of its letters, from the first to the last.
    pub fn eval_word(&self, word: &Word) -> Result<Sparse, Memory>
        requires answer { IsAnswerValue self.now }
        requires word { IsAnswerWord self.now word.now }
        ensures value { IfOk result (λ v. IsReducedOf ◌<◌ nat_eq self.now.field v (word_row (answer_of self.now).action word.now)) }
        ensures row { IfOk result (IsRow self.now.field (dimension (answer_of self.now).action)) }
    {
        answers_are_traced();
        let alloc = *self.basis.allocator();
        let image = &self.images[usize::from(word.root_of())];
        trace_word(alloc, self, &self.field, image, word.spelling())
    }

    /// The row vector of an element of the module: the sum over its terms.
    pub fn eval_free(&self, element: &FreeMod) -> Result<Sparse, Memory>
        requires answer { IsAnswerValue self.now }
        requires residues { All (λ t. t.1 < self.now.field) element.now }
        requires words { All (λ t. IsAnswerWord self.now t.0) element.now }
        ensures value { IfOk result (λ v. IsReducedOf ◌<◌ nat_eq self.now.field v (evaluation (answer_of self.now).action element.now)) }
        ensures row { IfOk result (IsRow self.now.field (dimension (answer_of self.now).action)) }
    {
        answers_are_traced();
        let alloc = *self.basis.allocator();
        trace_sub(alloc, self, &self.field, &self.images, element)
    }
}

/// An answer is a table along which words and elements are traced.
impl Rows for Answer {
    ghost use Rattle.ve_matrix.specs.Evaluating.{answer_table};

    ghost rows = { answer_table };

    fn row(&self, id: u32, letter: u8) -> Option<&Sparse> {
        match self.matrices.get(usize::from(letter)) {
            Some(matrix) => matrix.get(id),
            None => None,
        }
    }
}

/// What is traced along an answer's rows is what its matrices give.
pub fn answers_are_traced()
    ensures { AnswersAreTraced }
{}
