//! Elements and presentations, call by call.

ghost use Rattle.std.specs.Prelude.{ℕ, ◌<◌, IfOk};
ghost use Rattle.ve_theory.specs.Combinations.{IsReduced};
ghost use Rattle.ve_theory.specs.Words.{Shortlex, ShortlexLetters};
ghost use Rattle.ve_pres.specs.Terms.{HasLettersBelow, HasWordsBelow};

mod elements;
mod presentations;

use std::alloc::Global;
use ve_field::Field;
use ve_pres::{FreeAlg, FreeMod, PresFault};

/// Terms, each a coefficient and letters, from the greatest word on.
pub(super) type Element = &'static [(u8, &'static [u8])];

const ZERO: Element = &[];

const ONE: Element = &[(1, &[])];

const X: Element = &[(1, &[0])];

const X_AND_Y: Element = &[(1, &[1]), (1, &[0])];

/// The sum of terms. Letters from `count` on are left out.
pub(super) fn element_of(
    alloc: Global,
    field: &Field,
    count: u8,
    terms: Element,
) -> Result<FreeAlg, PresFault>
    ensures reduced { IfOk result (λ r. IsReduced ShortlexLetters field.now r) }
    ensures letters { IfOk result (λ r. HasLettersBelow count r) }
{
    let mut sum = FreeAlg::zero(alloc);
    for (coef, letters) in terms {
        sum = sum.plus(field, term_of(alloc, field, count, *coef, letters)?)?;
    }
    Ok(sum)
}

fn term_of(
    alloc: Global,
    field: &Field,
    count: u8,
    coef: u8,
    letters: &[u8],
) -> Result<FreeAlg, PresFault>
    ensures reduced { IfOk result (λ r. IsReduced ShortlexLetters field.now r) }
    ensures letters { IfOk result (λ r. HasLettersBelow count r) }
{
    field.has_prime();
    let mut product = FreeAlg::constant(alloc, field, field.reduce(u128::from(coef)))?;
    for letter in letters {
        if *letter < count {
            product = product.mul(field, &FreeAlg::letter(alloc, *letter)?)?;
        }
    }
    Ok(product)
}

fn power_of(
    alloc: Global,
    field: &Field,
    count: u8,
    terms: Element,
    exponent: u32,
) -> Result<FreeAlg, PresFault>
    ensures reduced { IfOk result (λ r. IsReduced ShortlexLetters field.now r) }
    ensures letters { IfOk result (λ r. HasLettersBelow count r) }
{
    let element = element_of(alloc, field, count, terms)?;
    element.pow(field, exponent.min(1000))
}

/// The first generator times an element.
fn in_module(alloc: Global, field: &Field, element: &FreeAlg) -> Result<FreeMod, PresFault>
    requires { IsReduced ShortlexLetters field.now element.now }
    ensures reduced { IfOk result (λ v. IsReduced Shortlex field.now v) }
    ensures words { IfOk result (λ v. (m n : ℕ) → 0 < m → HasLettersBelow n element.now → HasWordsBelow m n v) }
{
    field.has_prime();
    let first = FreeMod::root(alloc, 0)?;
    let product = first.times(field, element)?;
    Ok(product)
}

/// Whether the element has these terms, in this order.
fn has_terms(element: &FreeAlg, terms: &[(u8, &[u8])]) -> bool {
    element.term_count() == terms.len()
        && (0..element.term_count()).all(|at| {
            (element.coef_at(at), element.word_at(at).as_slice()) == terms[at]
        })
}

/// Whether the element has these terms, in this order, with words of the first generator.
fn has_terms_in_module(element: &FreeMod, terms: Element) -> bool {
    element.term_count() == terms.len()
        && (0..element.term_count()).all(|at| {
            let word = element.word_at(at);
            word.root_of() == 0 && (element.coef_at(at), word.spelling().as_slice()) == terms[at]
        })
}
