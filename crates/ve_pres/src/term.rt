//! Lists of terms, and how they are brought into order.

ghost use Rattle.std.specs.Prelude.{◌≡◌, ◌≢◌, ◌+◌, ◌≤◌, ◌<◌, List, [], ◌∷◌, ◌++◌, All, IfOk, IfSome, IfNone, OnOk, length};
ghost use Rattle.ve_theory.specs.Combinations.{IsReduced};
ghost use Rattle.ve_theory.specs.Words.{Shortlex, times_all};
ghost use Rattle.ve_theory.specs.Elements.{IsElementOf};
ghost use Rattle.ve_pres.specs.Terms.{negatives, pairs};
ghost use Rattle.ve_pres.specs.Gathering.{AtLeast, Gathers, IsReady};
ghost use Rattle.ve_pres.specs.declared.term.Term.{Term as TermValue};

use std::alloc::Global;
use ve_field::Field;
use ve_word::{Memory, Word, shortlex};

/// A word with its coefficient.
#[derive(Drop)]
pub(crate) struct Term {
    pub(crate) word: Word,
    pub(crate) coef: u8,
}

impl Term {
    /// The same term once more.
    pub(crate) fn copy(&self) -> Result<Term, Memory>
        ensures { IfOk result (λ term. term ≡ self.now) }
    {
        Ok(Term {
            word: self.word.copy()?,
            coef: self.coef,
        })
    }
}

/// Puts the negative of each coefficient in its place.
pub(crate) fn negate(terms: &mut [Term], field: &Field)
    requires { All (λ t. t.1 < field.now) (pairs terms.old) }
    ensures { pairs terms.new ≡ negatives field.now (pairs terms.old) }
{
    for term in terms {
        term.coef = field.neg(term.coef);
    }
}

/// The word times letters.
#[tactic(auto, using(crate::proofs::Words::word_steps))]
pub(crate) fn times_letters(word: &Word, letters: &[u8]) -> Result<Word, Memory>
    ensures { IfOk result (λ product. product ≡ times_all word.now letters.now) }
{
    let mut product = word.copy()?;
    for letter in letters {
        product.push(*letter)?;
    }
    Ok(product)
}

/// Puts terms into strictly falling shortlex order: those of one word are added up, and zeros are left out.
pub(crate) fn gather(
    alloc: Global,
    field: &Field,
    mut terms: Vec<Term>,
) -> Result<Vec<Term>, Memory>
    requires { All (λ t. t.1 < field.now) (pairs terms.items) }
    ensures sum { IfOk result (λ kept. IsElementOf field.now (pairs kept.items) (pairs terms.items)) }
    ensures count { IfOk result (λ kept. length kept.items ≤ length terms.items) }
{
    terms.sort_by(|a, b| shortlex(&a.word, &b.word))?;
    let mut kept = Vec::with_capacity(alloc, terms.len())?;
    while let Some(term) = terms.pop() {
        add_last(&mut kept, field, term)?;
    }
    Ok(kept)
}

// Adds a term whose word is at most the last one.
fn add_last(kept: &mut Vec<Term>, field: &Field, term: Term) -> Result<(), Memory>
    requires reduced { IsReduced Shortlex field.now (pairs kept.old.items) }
    requires residue { term.coef < field.now }
    requires at_least { AtLeast term.word (pairs kept.old.items) }
    ensures sum { OnOk result (Gathers field.now (pairs kept.old.items) (term.word, term.coef) (pairs kept.new.items)) }
    ensures count { OnOk result (length kept.new.items ≤ length kept.old.items + 1) }
{
    let coef = sum_with_last(kept, field, &term);
    if coef != 0 {
        kept.push(Term {
            word: term.word,
            coef,
        })?;
    }
    Ok(())
}

// Takes the last term off, where it has the word of the given one, and answers the sum of their coefficients.
fn sum_with_last(kept: &mut Vec<Term>, field: &Field, term: &Term) -> u8
    requires reduced { IsReduced Shortlex field.now (pairs kept.old.items) }
    requires residue { term.now.coef < field.now }
    requires at_least { AtLeast term.now.word (pairs kept.old.items) }
    ensures ready { IsReady field.now (pairs kept.old.items) (term.now.word, term.now.coef) (pairs kept.new.items) result }
    ensures count { length kept.new.items ≤ length kept.old.items }
{
    match take_last(kept, &term.word) {
        Some(last) => field.add(last.coef, term.coef),
        None => term.coef,
    }
}

// Takes the last term off, where it has this word.
fn take_last(kept: &mut Vec<Term>, word: &Word) -> Option<Term>
    ensures taken { IfSome result (λ last. kept.old.items ≡ kept.new.items ++ last ∷ []) }
    ensures same { IfSome result (λ last. last.word ≡ word.now) }
    ensures kept { IfNone result (kept.new.items ≡ kept.old.items) }
    ensures other { IfNone result ((front : List TermValue) (last : TermValue) → kept.old.items ≡ front ++ last ∷ [] → last.word ≢ word.now) }
{
    let last = kept.last()?;
    if shortlex(&last.word, word).is_ne() {
        return None;
    }
    kept.pop()
}
