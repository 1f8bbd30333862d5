//! Halves of relations between two words.

ghost use Rattle.std.specs.Prelude.{◌≡◌, All, IfOk, MatchOption, None, ◌≤◌, drop, length};
ghost use Rattle.ve_theory.specs.Combinations.{IsReduced};
ghost use Rattle.ve_theory.specs.Words.{ShortlexLetters, times_all};
ghost use Rattle.ve_theory.specs.Elements.{IsAlgebraElementOf, halved as half_of, inverse_of_letters};
ghost use Rattle.ve_theory.specs.Presentations.{HasLetters};

use crate::term::{Term, times_letters};
use crate::{FreeAlg, Presentation};
use ve_word::{Memory, Word};

impl Presentation {
    ghost use Rattle.ve_pres.specs.Halves.{AreHalfWords, IsHalf, IsInverseProduct, kept_of};

    /// Half of a relation between two words: the last letters of the longer one, half as many as the lengths differ by, go to
    /// the other side as their inverses. Where there is no such half it is the element itself. Half of a half is the half.
    pub fn halved(&self, element: &FreeAlg) -> Result<FreeAlg, Memory>
        requires residues { IsReduced ShortlexLetters self.now.presentation.prime element.now }
        requires letters { All (λ t. HasLetters self.now.presentation t.0) element.now }
        ensures half { IfOk result (λ half. IsAlgebraElementOf self.now.presentation.prime half (half_of self.now.presentation.inverses element.now)) }
        ensures letters { IfOk result (λ half. All (λ t. HasLetters self.now.presentation t.0) half) }
        ensures own_half { IfOk result (λ half. IsAlgebraElementOf self.now.presentation.prime half (half_of self.now.presentation.inverses half)) }
    {
        match self.half(element)? {
            Some(half) => Ok(half),
            None => element.copy(),
        }
    }

    // The half of a relation, where there is one.
    fn half(&self, element: &FreeAlg) -> Result<Option<FreeAlg>, Memory>
        requires residues { IsReduced ShortlexLetters self.now.presentation.prime element.now }
        requires letters { All (λ t. HasLetters self.now.presentation t.0) element.now }
        ensures { IfOk result (λ found. MatchOption found
            (half_of self.now.presentation.inverses element.now ≡ element.now)
            (IsHalf self.now.presentation element.now)) }
    {
        if element.term_count() != 2 {
            return Ok(None);
        }
        let Some((left, right)) = self.half_words(element.word_at(0), element.word_at(1))? else {
            return Ok(None);
        };
        let first = Term {
            word: left,
            coef: element.coef_at(0),
        };
        let second = Term {
            word: right,
            coef: element.coef_at(1),
        };
        let alloc = *self.relations.allocator();
        let half = FreeAlg::of_terms(alloc, &self.field, first, second)?;
        Ok(Some(half))
    }

    // The two words of the half of a relation, where there is one.
    fn half_words(&self, longer: &[u8], shorter: &[u8]) -> Result<Option<(Word, Word)>, Memory>
        requires letters { HasLetters self.now.presentation longer.now }
        requires lengths { length shorter.now ≤ length longer.now }
        ensures { IfOk result (λ found. MatchOption found
            (inverse_of_letters self.now.presentation.inverses (drop (kept_of longer.now shorter.now) longer.now) ≡ None)
            (λ words. AreHalfWords self.now.presentation longer.now shorter.now words.0 words.1)) }
    {
        let kept = longer.len() - (longer.len() - shorter.len()) / 2;
        let (front, back) = longer.split_at(kept);
        let start = Word::root(*self.relations.allocator(), 0);
        let right = times_letters(&start, shorter)?;
        let Some(right) = self.times_inverse(right, back)? else {
            return Ok(None);
        };
        let left = times_letters(&start, front)?;
        Ok(Some((left, right)))
    }

    // The word times the inverse of letters, where each letter has one.
    fn times_inverse(&self, word: Word, letters: &[u8]) -> Result<Option<Word>, Memory>
        requires { HasLetters self.now.presentation letters.now }
        ensures { IfOk result (λ found. MatchOption found
            (inverse_of_letters self.now.presentation.inverses letters.now ≡ None)
            (IsInverseProduct self.now.presentation word letters.now)) }
    {
        let mut product = word;
        let mut left = letters.len();
        while left > 0 {
            left -= 1;
            let Some(inverse) = self.inverse_of(letters[left]) else {
                return Ok(None);
            };
            product.push(inverse)?;
        }
        Ok(Some(product))
    }
}
