//! Whether an answer is ordered: basis words rise, and no row has a word after the word that it is the row of.

ghost use Rattle.std.specs.Prelude.{◌≡◌, ◌<◌, ◌↔◌, ℕ, AllPairs, IfOk, IfSome, IsNone, IsTrue, MatchOption, length};
ghost use Rattle.ve_theory.specs.Words.{letters};
ghost use Rattle.ve_theory.specs.Presentations.{HasLetters, before, letter_count};
ghost use Rattle.ve_theory.specs.Validity.{IsValid};
ghost use Rattle.ve_theory.specs.Answers.{HasShape, IsOrdered, IsRow, IsRowUpTo, dimension};
ghost use Rattle.ve_matrix.specs.Answers.{AnswerFits, IsAnswerValue, answer_of};
ghost use Rattle.ve_matrix.specs.Disorders.{FallsFirst, ImageFailsFirst, ImagesAreOrderedBelow, IsDisorder, IsFirstAbove, IsFirstRowAbove, MatricesAreOrderedBelow, RowsAreOrderedBelow};

use crate::Answer;
use std::cmp::Ordering;
use ve_pres::Presentation;
use ve_theory::order::words_are_ordered;
use ve_vec::Sparse;
use ve_word::{Memory, Word, weighted};

/// The first way in which an answer isn't ordered. Rows, and letters, count from 1.
#[derive(Clone, Copy, Debug, PartialEq, Eq)]
pub enum Disorder {
    /// This basis word is the first that isn't after the one before it.
    Rising { row: u32 },
    /// This row is the first with a word after the one that it is the row of. Where the letter is 0 it is a generator's.
    Above { letter: u16, row: u32 },
}

impl Answer {
    /// The first way in which the answer isn't ordered, or `None` where it is: basis words come first, then the rows of
    /// generators, then those of the letters. Words are compared by the weights of the presentation's letters.
    pub fn disorder(&self, presentation: &Presentation) -> Result<Option<Disorder>, Memory>
        requires answer { IsAnswerValue self.now }
        requires shape { HasShape presentation.now.presentation (answer_of self.now) }
        ensures ordered { IfOk result (λ disorder. IsNone disorder ↔ IsOrdered presentation.now.presentation (answer_of self.now).action) }
        ensures first { IfOk result (λ disorder. IfSome disorder (IsDisorder presentation.now.presentation (answer_of self.now).action)) }
    {
        presentation.is_valid();
        if let Some(place) = self.first_fall(presentation)? {
            return Ok(Some(Disorder::Rising { row: place + 1 }));
        }
        if let Some(root) = self.first_image_above(presentation)? {
            let row = u32::from(root) + 1;
            return Ok(Some(Disorder::Above { letter: 0, row }));
        }
        if let Some((letter, place)) = self.first_row_above(presentation)? {
            let letter = u16::from(letter) + 1;
            return Ok(Some(Disorder::Above {
                letter,
                row: place + 1,
            }));
        }
        Ok(None)
    }

    /// The first basis word that isn't after the one before it.
    fn first_fall(&self, presentation: &Presentation) -> Result<Option<u32>, Memory>
        requires { AnswerFits presentation.now.presentation self.now }
        ensures { IfOk result (λ place. MatchOption place
            (AllPairs (before presentation.now.presentation) (answer_of self.now).action.basis)
            (FallsFirst presentation.now.presentation (answer_of self.now).action)) }
    {
        words_are_ordered();
        let count = self.basis.len() as u32;
        if count == 0 {
            return Ok(None);
        }
        let mut last = self.basis_word(0)?;
        for place in 1..count {
            let word = self.basis_word(place)?;
            if !comes_before(presentation, &last, &word) {
                return Ok(Some(place));
            }
            last = word;
        }
        Ok(None)
    }

    /// The first generator whose row has a word after it.
    fn first_image_above(&self, presentation: &Presentation) -> Result<Option<u8>, Memory>
        requires order { AnswerFits presentation.now.presentation self.now }
        requires rising { AllPairs (before presentation.now.presentation) (answer_of self.now).action.basis }
        ensures { IfOk result (λ root. MatchOption root
            (ImagesAreOrderedBelow presentation.now.presentation (answer_of self.now).action presentation.now.presentation.generators)
            (ImageFailsFirst presentation.now.presentation (answer_of self.now).action)) }
    {
        let alloc = *self.basis.allocator();
        let roots = self.roots as u8;
        for root in 0..roots {
            let word = Word::root(alloc, root);
            if !self.is_up_to(presentation, &self.images[usize::from(root)], &word)? {
                return Ok(Some(root));
            }
        }
        Ok(None)
    }

    /// The first letter with a row that has a word after its own, and the first such row.
    fn first_row_above(&self, presentation: &Presentation) -> Result<Option<(u8, u32)>, Memory>
        requires order { AnswerFits presentation.now.presentation self.now }
        requires rising { AllPairs (before presentation.now.presentation) (answer_of self.now).action.basis }
        ensures { IfOk result (λ row. MatchOption row
            (MatricesAreOrderedBelow presentation.now.presentation (answer_of self.now).action (letter_count presentation.now.presentation))
            (λ r. IsFirstRowAbove presentation.now.presentation (answer_of self.now).action r.0 r.1)) }
    {
        for letter in 0..self.names.count() {
            if let Some(place) = self.first_above(presentation, letter)? {
                return Ok(Some((letter, place)));
            }
        }
        Ok(None)
    }

    /// The first row of a letter that has a word after its own.
    fn first_above(&self, presentation: &Presentation, letter: u8) -> Result<Option<u32>, Memory>
        requires order { AnswerFits presentation.now.presentation self.now }
        requires rising { AllPairs (before presentation.now.presentation) (answer_of self.now).action.basis }
        requires letter { letter < length self.now.names }
        ensures { IfOk result (λ place. MatchOption place
            (RowsAreOrderedBelow presentation.now.presentation (answer_of self.now).action letter (dimension (answer_of self.now).action))
            (IsFirstAbove presentation.now.presentation (answer_of self.now).action letter)) }
    {
        let matrix = &self.matrices[usize::from(letter)];
        for place in 0..matrix.size() {
            let mut word = self.basis_word(place)?;
            word.push(letter)?;
            if !self.is_up_to(presentation, matrix.row(place), &word)? {
                return Ok(Some(place));
            }
        }
        Ok(None)
    }

    /// Whether a row has no word after this one. Basis words rise, so the last one of the row decides.
    fn is_up_to(
        &self,
        presentation: &Presentation,
        row: &Sparse,
        word: &Word,
    ) -> Result<bool, Memory>
        requires order { AnswerFits presentation.now.presentation self.now }
        requires rising { AllPairs (before presentation.now.presentation) (answer_of self.now).action.basis }
        requires row { IsRow self.now.field (dimension (answer_of self.now).action) row.now }
        requires word { HasLetters presentation.now.presentation (letters word.now) }
        ensures { IfOk result (λ is. IsTrue is
            ↔ IsRowUpTo presentation.now.presentation (answer_of self.now).action word.now row.now) }
    {
        words_are_ordered();
        let Some(leading) = row.leading() else {
            return Ok(true);
        };
        let last = self.basis_word(leading.id)?;
        Ok(!comes_before(presentation, word, &last))
    }
}

/// Whether a word is before another.
fn comes_before(presentation: &Presentation, first: &Word, second: &Word) -> bool
    requires valid { IsValid presentation.now.presentation }
    requires first { HasLetters presentation.now.presentation (letters first.now) }
    requires second { HasLetters presentation.now.presentation (letters second.now) }
    ensures { IsTrue result ↔ before presentation.now.presentation first.now second.now }
{
    weighted(first, second, presentation.weights()) == Ordering::Less
}
