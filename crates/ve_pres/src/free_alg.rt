//! Elements of the free algebra.

ghost use Rattle.std.specs.Prelude.{◌≡◌, ℕ, ◌+◌, ◌-◌, ◌*◌, ◌<◌, ◌≤◌, ◌⊎◌, [], ◌∷◌, ◌++◌, All, IfOk, length, slice_index_or};
ghost use Rattle.ve_theory.specs.Combinations.{IsReduced, scaled, unit};
ghost use Rattle.ve_theory.specs.Words.{ShortlexLetters, letters};
ghost use Rattle.ve_theory.specs.Elements.{IsAlgebraElementOf, algebra_length, algebra_weight, power, product};
ghost use Rattle.ve_theory.specs.Validity.{algebra_cells, most_length, most_terms};
ghost use Rattle.ve_theory.specs.Presentations.{most_weight};
ghost use Rattle.ve_pres.specs.Limits.{IsLimitedBy, product_limit, sum_limit};
ghost use Rattle.ve_pres.specs.Powers.{IsPowerResult};
ghost use Rattle.ve_pres.specs.Terms.{HasLettersBelow, IsSummand};

use crate::FreeMod;
use crate::limit::PresFault;
use crate::term::Term;
use std::alloc::Global;
use std::marker::Model;
use ve_field::Field;
use ve_theory::elements::products_are_bilinear;
use ve_word::{Memory, Word};

/// An element of the free algebra, seen as its terms, lists of letters with their coefficients, in strictly falling shortlex
/// order. It has at most 4,096 terms, and its words at most 1,000 letters. Letters count from 0.
#[derive(Drop)]
pub struct FreeAlg {
    // The algebra is kept as the free module on one generator.
    element: FreeMod,
}

impl Model for FreeAlg {
    ghost use Rattle.std.specs.Prelude.{◌≡◌, All};
    ghost use Rattle.std.specs.Coded.{coded_list, coded×, coded_ℕ};
    ghost use Rattle.ve_theory.specs.Words.{start};
    ghost use Rattle.ve_theory.specs.Elements.{AlgebraElement};

    ghost Value = { AlgebraElement };

    ghost coded = { coded_list (coded× (coded_list coded_ℕ) coded_ℕ) };

    ghost use Rattle.ve_pres.specs.Terms.{in_algebra};

    ghost view = { λ r. in_algebra r.element };

    ghost invariant = { λ r. All (λ t. start t.0 ≡ 0) r.element };
}

impl FreeAlg {
    /// The element zero.
    pub fn zero(alloc: Global) -> FreeAlg
        ensures zero { result ≡ [] }
        ensures reduced { (p : ℕ) → IsReduced ShortlexLetters p result }
    {
        FreeAlg {
            element: FreeMod::zero(alloc),
        }
    }

    /// A residue, as an element without letters.
    #[tactic(auto, using(crate::proofs::Words::short_generator))]
    pub fn constant(alloc: Global, field: &Field, value: u8) -> Result<FreeAlg, Memory>
        requires { value < field.now }
        ensures constant { IfOk result (λ r. IsAlgebraElementOf field.now r (([], value) ∷ [])) }
        ensures letters { IfOk result (λ r. (n : ℕ) → HasLettersBelow n r) }
    {
        if value == 0 {
            return Ok(FreeAlg::zero(alloc));
        }
        let one = FreeMod::of_word(alloc, Word::root(alloc, 0))?;
        let element = one.scale(field, value)?;
        Ok(FreeAlg { element })
    }

    /// A letter.
    pub fn letter(alloc: Global, letter: u8) -> Result<FreeAlg, Memory>
        ensures letter { IfOk result (λ r. r ≡ unit (letter ∷ [])) }
        ensures reduced { IfOk result (λ r. (p : ℕ) → 1 < p → IsReduced ShortlexLetters p r) }
    {
        let mut word = Word::root(alloc, 0);
        word.push(letter)?;
        let element = FreeMod::of_word(alloc, word)?;
        Ok(FreeAlg { element })
    }

    /// The element times a residue.
    pub fn scale(&self, field: &Field, by: u8) -> Result<FreeAlg, Memory>
        requires residues { IsReduced ShortlexLetters field.now self.now }
        requires residue { by < field.now }
        ensures multiple { IfOk result (λ r. IsAlgebraElementOf field.now r (scaled by self.now)) }
        ensures letters { IfOk result (λ r. (n : ℕ) → HasLettersBelow n self.now → HasLettersBelow n r) }
    {
        let element = self.element.scale(field, by)?;
        Ok(FreeAlg { element })
    }

    /// The negative, which moves the terms.
    pub fn negated(self, field: &Field) -> FreeAlg
        requires residues { IsReduced ShortlexLetters field.now self }
        ensures negative { IsAlgebraElementOf field.now result (scaled (field.now - 1) self) }
        ensures letters { (n : ℕ) → HasLettersBelow n self → HasLettersBelow n result }
    {
        FreeAlg {
            element: self.element.negated(field),
        }
    }

    /// The sum. Its number of terms is judged before terms of one word are added up.
    pub fn add(&self, field: &Field, other: &FreeAlg) -> Result<FreeAlg, PresFault>
        requires left { IsReduced ShortlexLetters field.now self.now }
        requires right { IsReduced ShortlexLetters field.now other.now }
        ensures sum { IfOk result (λ r. IsAlgebraElementOf field.now r (self.now ++ other.now)) }
        ensures letters { IfOk result (λ r. (n : ℕ) → HasLettersBelow n self.now → HasLettersBelow n other.now → HasLettersBelow n r) }
        ensures limit { IsLimitedBy (sum_limit (length self.now + length other.now)) result }
    {
        let element = self.element.add(field, &other.element)?;
        Ok(FreeAlg { element })
    }

    /// The sum, which moves the terms of both. Its number of terms is judged before terms of one word are added up.
    pub fn plus(self, field: &Field, other: FreeAlg) -> Result<FreeAlg, PresFault>
        requires left { IsReduced ShortlexLetters field.now self }
        requires right { IsReduced ShortlexLetters field.now other }
        ensures sum { IfOk result (λ r. IsAlgebraElementOf field.now r (self ++ other)) }
        ensures letters { IfOk result (λ r. (n : ℕ) → HasLettersBelow n self → HasLettersBelow n other → HasLettersBelow n r) }
        ensures limit { IsLimitedBy (sum_limit (length self + length other)) result }
    {
        let element = self.element.plus(field, other.element)?;
        Ok(FreeAlg { element })
    }

    /// The product. Its number of terms is judged before terms of one word are added up, and then its length.
    pub fn mul(&self, field: &Field, other: &FreeAlg) -> Result<FreeAlg, PresFault>
        requires left { IsReduced ShortlexLetters field.now self.now }
        requires right { IsReduced ShortlexLetters field.now other.now }
        ensures product { IfOk result (λ r. IsAlgebraElementOf field.now r (product self.now other.now)) }
        ensures letters { IfOk result (λ r. (n : ℕ) → HasLettersBelow n self.now → HasLettersBelow n other.now → HasLettersBelow n r) }
        ensures limit { IsLimitedBy (product_limit (length self.now * length other.now) (algebra_length self.now + algebra_length other.now)) result }
    {
        let element = self.element.times(field, other)?;
        Ok(FreeAlg { element })
    }

    /// The power of an exponent. The power 0 is 1, the power 1 the element, and each further power the one before it times the
    /// element, by `mul`, with the first refusal of these.
    pub fn pow(&self, field: &Field, exponent: u32) -> Result<FreeAlg, PresFault>
        requires residues { IsReduced ShortlexLetters field.now self.now }
        requires exponent { exponent ≤ 1000 }
        ensures power { IfOk result (λ r. IsAlgebraElementOf field.now r (power self.now exponent)) }
        ensures letters { IfOk result (λ r. (n : ℕ) → HasLettersBelow n self.now → HasLettersBelow n r) }
        ensures limit { IsPowerResult field.now self.now exponent result }
    {
        if exponent == 0 {
            let one = field.reduce(1);
            return Ok(FreeAlg::constant(self.element.allocator(), field, one)?);
        }
        // The power of a product is reached step by step, since each step has its limits.
        products_are_bilinear();
        let mut reached = self.copy()?;
        'powers: for _ in 1..exponent {
            reached = reached.mul(field, self)?;
        }
        Ok(reached)
    }

    /// The greatest number of letters in a word, and 0 for zero.
    pub fn length(&self) -> u32
        ensures length { result ≡ algebra_length self.now }
        ensures within { result ≤ most_length }
    {
        self.element.length()
    }

    /// How many terms there are.
    pub fn term_count(&self) -> usize
        ensures count { result ≡ length self.now }
        ensures within { result ≤ most_terms }
    {
        self.element.term_count()
    }

    /// The letters of a term, counted from 0.
    pub fn word_at(&self, at: usize) -> &Vec<u8>
        requires { at < length self.now }
        ensures word { result.now.items ≡ (slice_index_or self.now at ([], 0)).0 }
        ensures within { length result.now.items ≤ most_length }
    {
        self.element.word_at(at).spelling()
    }

    /// The coefficient of a term, counted from 0.
    pub fn coef_at(&self, at: usize) -> u8
        requires { at < length self.now }
        ensures { result ≡ (slice_index_or self.now at ([], 0)).1 }
    {
        self.element.coef_at(at)
    }

    // The sum of two terms, of words of the first generator.
    pub(crate) fn of_terms(
        alloc: Global,
        field: &Field,
        first: Term,
        second: Term,
    ) -> Result<FreeAlg, Memory>
        requires first { IsSummand field.now first }
        requires second { IsSummand field.now second }
        ensures sum { IfOk result (λ r. IsAlgebraElementOf field.now r ((letters first.word, first.coef) ∷ (letters second.word, second.coef) ∷ [])) }
        ensures count { IfOk result (λ r. length r ≤ 2) }
        ensures words { IfOk result (λ r. All (λ t. (t.0 ≡ letters first.word) ⊎ (t.0 ≡ letters second.word)) r) }
    {
        let mut terms = Vec::with_capacity(alloc, 2)?;
        terms.push(first)?;
        terms.push(second)?;
        let element = FreeMod::from_terms(alloc, field, terms)?;
        Ok(FreeAlg { element })
    }

    // The product of two letters, less 1.
    pub(crate) fn inverse_relator(
        alloc: Global,
        field: &Field,
        letter: u8,
        inverse: u8,
    ) -> Result<FreeAlg, Memory>
        ensures { IfOk result (λ r. r ≡ (letter ∷ inverse ∷ [], 1) ∷ ([], field.now - 1) ∷ []) }
    {
        let mut product = Word::root(alloc, 0);
        product.push(letter)?;
        product.push(inverse)?;
        let first = Term {
            word: product,
            coef: 1,
        };
        let second = Term {
            word: Word::root(alloc, 0),
            coef: field.prime() - 1,
        };
        let element = FreeMod::of_two(alloc, first, second)?;
        Ok(FreeAlg { element })
    }

    /// The greatest weight of a word, and 0 for zero.
    pub fn weight(&self, weights: &[u8]) -> u32
        requires letters { All (λ t. All (λ x. x < length weights.now) t.0) self.now }
        requires weights { All (λ w. w ≤ most_weight) weights.now }
        ensures weight { result ≡ algebra_weight weights.now self.now }
        ensures within { result ≤ most_weight * most_length }
    {
        self.element.weight(weights)
    }

    // How much room the element takes: over its terms, the letters of the word and one more.
    pub(crate) fn cells(&self) -> u64
        ensures cells { result ≡ algebra_cells self.now }
        ensures within { result ≤ most_terms * (most_length + 1) }
        ensures terms { length self.now ≤ most_terms }
        ensures length { algebra_length self.now ≤ most_length }
    {
        self.element.cells()
    }

    // The same element once more.
    pub(crate) fn copy(&self) -> Result<FreeAlg, Memory>
        ensures { IfOk result (λ r. r ≡ self.now) }
    {
        let element = self.element.copy()?;
        Ok(FreeAlg { element })
    }
}
