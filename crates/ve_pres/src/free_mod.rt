//! Elements of the free module.

ghost use Rattle.std.specs.Prelude.{◌≡◌, ℕ, ◌+◌, ◌-◌, ◌*◌, ◌<◌, ◌≤◌, [], ◌∷◌, ◌++◌, All, IfOk, OnOk, length, slice_index_or};
ghost use Rattle.ve_theory.specs.Combinations.{IsReduced, scaled, unit};
ghost use Rattle.ve_theory.specs.Words.{Shortlex, generator, letters, word_length};
ghost use Rattle.ve_theory.specs.Elements.{IsElementOf, algebra_length, element_length, element_times, element_weight, word_times};
ghost use Rattle.ve_theory.specs.Words.{ShortlexLetters};
ghost use Rattle.ve_theory.specs.Validity.{element_cells, most_length, most_terms};
ghost use Rattle.ve_theory.specs.Presentations.{most_weight};
ghost use Rattle.ve_pres.specs.Limits.{IsLimitedBy, product_limit, sum_limit};
ghost use Rattle.ve_pres.specs.Terms.{HasLettersBelow, HasWordsBelow, IsKept, IsSummable, pairs, residues};

use crate::FreeAlg;
use crate::limit::{PresFault, check_product, check_sum};
use crate::merge::{merge, merge_moved, push_copies};
use crate::term::{Term, gather, negate, times_letters};
use crate::weights::letters_weight;
use std::alloc::Global;
use std::marker::Model;
use ve_field::Field;
use ve_word::{Memory, Word};

/// An element of the free module, seen as its terms, words with their coefficients, in strictly falling shortlex order. It has
/// at most 4,096 terms, and its words at most 1,000 letters. Generators and letters count from 0.
#[derive(Drop)]
pub struct FreeMod {
    terms: Vec<Term>,
}

impl Model for FreeMod {
    ghost use Rattle.std.specs.Coded.{coded_list, coded×, coded_ℕ};
    ghost use Rattle.ve_theory.specs.Words.{word_code};
    ghost use Rattle.ve_theory.specs.Elements.{Element};

    ghost Value = { Element };

    ghost coded = { coded_list (coded× word_code coded_ℕ) };

    ghost use Rattle.ve_pres.specs.Terms.{HasLettersBelow, HasWordsBelow, IsKept, pairs};

    ghost view = { λ element. pairs element.terms.items };

    ghost invariant = { λ element. IsKept (pairs element.terms.items) };
}

impl FreeMod {
    /// The element zero.
    pub fn zero(alloc: Global) -> FreeMod
        ensures zero { result ≡ [] }
        ensures reduced { (p : ℕ) → IsReduced Shortlex p result }
    {
        FreeMod {
            terms: Vec::new(alloc),
        }
    }

    /// A generator.
    #[tactic(auto, using(crate::proofs::Words::short_generator))]
    pub fn root(alloc: Global, root: u8) -> Result<FreeMod, Memory>
        ensures root { IfOk result (λ element. element ≡ unit (generator root)) }
        ensures reduced { IfOk result (λ element. (p : ℕ) → 1 < p → IsReduced Shortlex p element) }
    {
        FreeMod::of_word(alloc, Word::root(alloc, root))
    }

    // A word, once.
    pub(crate) fn of_word(alloc: Global, word: Word) -> Result<FreeMod, Memory>
        requires { word_length word ≤ most_length }
        ensures { IfOk result (λ element. element ≡ unit word) }
    {
        let mut terms = Vec::with_capacity(alloc, 1)?;
        terms.push(Term { word, coef: 1 })?;
        Ok(FreeMod { terms })
    }

    // Two terms, the greater word first.
    pub(crate) fn of_two(alloc: Global, first: Term, second: Term) -> Result<FreeMod, Memory>
        requires { IsKept ((first.word, first.coef) ∷ (second.word, second.coef) ∷ []) }
        ensures { IfOk result (λ element. element ≡ (first.word, first.coef) ∷ (second.word, second.coef) ∷ []) }
    {
        let mut terms = Vec::with_capacity(alloc, 2)?;
        terms.push(first)?;
        terms.push(second)?;
        Ok(FreeMod { terms })
    }

    // The same element once more.
    pub(crate) fn copy(&self) -> Result<FreeMod, Memory>
        ensures { IfOk result (λ element. element ≡ self.now) }
    {
        let mut terms = Vec::with_capacity(self.allocator(), self.terms.len())?;
        push_copies(&mut terms, &self.terms)?;
        Ok(FreeMod { terms })
    }

    pub(crate) fn allocator(&self) -> Global {
        *self.terms.allocator()
    }

    /// The element times a residue.
    pub fn scale(&self, field: &Field, by: u8) -> Result<FreeMod, Memory>
        requires residues { IsReduced Shortlex field.now self.now }
        requires residue { by < field.now }
        ensures multiple { IfOk result (λ element. IsElementOf field.now element (scaled by self.now)) }
        ensures words { IfOk result (λ element. (m n : ℕ) → HasWordsBelow m n self.now → HasWordsBelow m n element) }
    {
        let alloc = self.allocator();
        let mut terms = Vec::with_capacity(alloc, self.terms.len())?;
        self.push_scaled(field, by, &mut terms)?;
        FreeMod::from_terms(alloc, field, terms)
    }

    /// The negative, which moves the terms.
    pub fn negated(self, field: &Field) -> FreeMod
        requires residues { IsReduced Shortlex field.now self }
        ensures negative { IsElementOf field.now result (scaled (field.now - 1) self) }
        ensures words { (m n : ℕ) → HasWordsBelow m n self → HasWordsBelow m n result }
    {
        let mut terms = self.terms;
        negate(terms.as_mut_slice(), field);
        FreeMod { terms }
    }

    /// The sum. Its number of terms is judged before terms of one word are added up.
    pub fn add(&self, field: &Field, other: &FreeMod) -> Result<FreeMod, PresFault>
        requires left { IsReduced Shortlex field.now self.now }
        requires right { IsReduced Shortlex field.now other.now }
        ensures sum { IfOk result (λ element. IsElementOf field.now element (self.now ++ other.now)) }
        ensures words { IfOk result (λ element. (m n : ℕ) → HasWordsBelow m n self.now → HasWordsBelow m n other.now → HasWordsBelow m n element) }
        ensures limit { IsLimitedBy (sum_limit (length self.now + length other.now)) result }
    {
        check_sum(self.term_count() + other.term_count())?;
        let terms = merge(self.allocator(), field, &self.terms, &other.terms)?;
        Ok(FreeMod { terms })
    }

    /// The sum, which moves the terms of both. Its number of terms is judged before terms of one word are added up.
    pub fn plus(self, field: &Field, other: FreeMod) -> Result<FreeMod, PresFault>
        requires left { IsReduced Shortlex field.now self }
        requires right { IsReduced Shortlex field.now other }
        ensures sum { IfOk result (λ element. IsElementOf field.now element (self ++ other)) }
        ensures words { IfOk result (λ element. (m n : ℕ) → HasWordsBelow m n self → HasWordsBelow m n other → HasWordsBelow m n element) }
        ensures limit { IsLimitedBy (sum_limit (length self + length other)) result }
    {
        check_sum(self.term_count() + other.term_count())?;
        let terms = merge_moved(field, self.terms, other.terms)?;
        Ok(FreeMod { terms })
    }

    /// The product with an element of the algebra. Its number of terms is judged before terms of one word are added up, and then
    /// its length.
    pub fn times(&self, field: &Field, right: &FreeAlg) -> Result<FreeMod, PresFault>
        requires left { IsReduced Shortlex field.now self.now }
        requires right { IsReduced ShortlexLetters field.now right.now }
        ensures product { IfOk result (λ element. IsElementOf field.now element (element_times self.now right.now)) }
        ensures words { IfOk result (λ element. (m n : ℕ) → HasWordsBelow m n self.now → HasLettersBelow n right.now → HasWordsBelow m n element) }
        ensures limit { IsLimitedBy (product_limit (length self.now * length right.now) (element_length self.now + algebra_length right.now)) result }
    {
        let count = self.term_count() * right.term_count();
        check_product(count, self.length() + right.length())?;
        let alloc = self.allocator();
        let mut terms = Vec::with_capacity(alloc, count)?;
        for term in &self.terms {
            push_products(field, term, right, &mut terms)?;
        }
        Ok(FreeMod::from_terms(alloc, field, terms)?)
    }

    /// The greatest number of letters in a word, and 0 for zero.
    pub fn length(&self) -> u32
        ensures length { result ≡ element_length self.now }
        ensures within { result ≤ most_length }
    {
        // The first word is the longest.
        match self.terms.first() {
            Some(first) => first.word.len() as u32,
            None => 0,
        }
    }

    /// How many terms there are.
    pub fn term_count(&self) -> usize
        ensures count { result ≡ length self.now }
        ensures kept { IsKept self.now }
    {
        self.terms.len()
    }

    /// The word of a term, counted from 0.
    pub fn word_at(&self, at: usize) -> &Word
        requires { at < length self.now }
        ensures word { result.now ≡ (slice_index_or self.now at (generator 0, 0)).0 }
        ensures within { word_length result.now ≤ most_length }
    {
        &self.terms[at].word
    }

    /// The coefficient of a term, counted from 0.
    pub fn coef_at(&self, at: usize) -> u8
        requires { at < length self.now }
        ensures { result ≡ (slice_index_or self.now at (generator 0, 0)).1 }
    {
        self.terms[at].coef
    }

    /// The greatest weight of a word, and 0 for zero.
    pub fn weight(&self, weights: &[u8]) -> u32
        requires letters { All (λ t. All (λ x. x < length weights.now) (letters t.0)) self.now }
        requires weights { All (λ w. w ≤ most_weight) weights.now }
        ensures weight { result ≡ element_weight weights.now self.now }
        ensures within { result ≤ most_weight * most_length }
    {
        let mut greatest = 0;
        for term in &self.terms {
            greatest = greatest.max(letters_weight(weights, term.word.spelling()));
        }
        greatest
    }

    // How much room the element takes: over its terms, the letters of the word and one more.
    pub(crate) fn cells(&self) -> u64
        ensures cells { result ≡ element_cells self.now }
        ensures within { result ≤ most_terms * (most_length + 1) }
        ensures terms { length self.now ≤ most_terms }
        ensures length { element_length self.now ≤ most_length }
    {
        let mut cells = 0;
        for term in &self.terms {
            cells += term.word.len() as u64 + 1;
        }
        cells
    }

    // Adds the terms of the element times a residue to the end of a list.
    fn push_scaled(&self, field: &Field, by: u8, terms: &mut Vec<Term>) -> Result<(), Memory>
        requires residues { IsReduced Shortlex field.now self.now }
        requires residue { by < field.now }
        ensures { OnOk result (pairs terms.new.items ≡ pairs terms.old.items ++ residues field.now (scaled by self.now)) }
    {
        for term in &self.terms {
            terms.push(Term {
                word: term.word.copy()?,
                coef: field.mul(by, term.coef),
            })?;
        }
        Ok(())
    }

    // The sum of terms.
    pub(crate) fn from_terms(
        alloc: Global,
        field: &Field,
        terms: Vec<Term>,
    ) -> Result<FreeMod, Memory>
        requires { IsSummable field.now (pairs terms.items) }
        ensures sum { IfOk result (λ element. IsElementOf field.now element (pairs terms.items)) }
        ensures count { IfOk result (λ element. length element ≤ length terms.items) }
    {
        let terms = gather(alloc, field, terms)?;
        Ok(FreeMod { terms })
    }
}

// Adds the terms of a term times an element of the algebra to the end of a list.
fn push_products(
    field: &Field,
    term: &Term,
    right: &FreeAlg,
    terms: &mut Vec<Term>,
) -> Result<(), Memory>
    requires residue { term.now.coef < field.now }
    requires residues { IsReduced ShortlexLetters field.now right.now }
    ensures { OnOk result (pairs terms.new.items ≡ pairs terms.old.items ++ residues field.now (scaled term.now.coef (word_times term.now.word right.now))) }
{
    for at in 0..right.term_count() {
        terms.push(Term {
            word: times_letters(&term.word, right.word_at(at))?,
            coef: field.mul(term.coef, right.coef_at(at)),
        })?;
    }
    Ok(())
}
