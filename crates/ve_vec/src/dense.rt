//! Sums of many vectors over a span of ids.

ghost use Rattle.std.specs.Prelude.{◌≡◌, ℕ, ◌+◌, ◌*◌, ◌%◌, ◌^◌, ◌<◌, ◌≤◌, ◌↔◌, ◌∷◌, ◌++◌, [], All, IfOk, IsTrue, length, nat_eq};
ghost use Rattle.ve_theory.specs.Residues.{Congruent};
ghost use Rattle.ve_theory.specs.Combinations.{Alike, IsReducedOf, coefficient, scaled};
ghost use Rattle.ve_vec.specs.Spans.{AllBetween, spanned};
ghost use Rattle.ve_vec.specs.Terms.{pairs};

use crate::{Sparse, Term};
use smallvec::SmallVec;
use std::alloc::Global;
use std::marker::Model;
use ve_field::Field;
use ve_word::Memory;

/// A number from here on is reduced at once, so that a product always fits beside it.
const WIDE: u32 = 1 << 31;

/// A sum of vectors whose ids are in a span: a number for each id, reduced at the end.
#[derive(Drop)]
pub struct DenseSum {
    low: u32,
    high: u32,
    numbers: Vec<u32>,
}

impl Model for DenseSum {
    ghost use Rattle.std.specs.Prelude.{◌≡◌, ◌+◌, ◌^◌, ◌<◌, All, length};
    ghost use Rattle.ve_vec.specs.Spans.{SpanSum, spanned};

    ghost Value = { SpanSum };

    ghost view = { λ s. record { low = s.low; high = s.high; total = spanned s.low s.numbers.items } };

    ghost invariant = { λ s. (s.low + length s.numbers.items ≡ s.high + 1) × All (λ n. n < 2 ^ 31) s.numbers.items };
}

impl DenseSum {
    /// The zero sum over the ids from `low` to `high`.
    pub fn new(alloc: Global, low: u32, high: u32) -> Result<DenseSum, Memory>
        requires { low ≤ high }
        ensures low { IfOk result (λ s. s.low ≡ low) }
        ensures high { IfOk result (λ s. s.high ≡ high) }
        ensures zero { IfOk result (λ s. (p : ℕ) → Alike nat_eq p s.total []) }
    {
        let count = (high - low) as usize + 1;
        let numbers = vec![in alloc; 0; count]?;
        Ok(DenseSum { low, high, numbers })
    }

    /// Adds `by` times a vector.
    pub fn add_scaled(&mut self, field: &Field, by: u8, vector: &Sparse)
        requires { AllBetween self.old.low self.old.high vector.now }
        ensures low { self.new.low ≡ self.old.low }
        ensures high { self.new.high ≡ self.old.high }
        ensures sum { Alike nat_eq field.now self.new.total (self.old.total ++ scaled by vector.now) }
    {
        add_terms(&mut self.numbers, self.low, field, by, vector.terms());
    }

    /// Whether nothing stands at an id. What adds up to a multiple of the prime may still count as something.
    pub fn is_empty_at(&self, id: u32) -> bool
        requires low { self.now.low ≤ id }
        requires high { id ≤ self.now.high }
        ensures { IsTrue result ↔ (coefficient nat_eq self.now.total id ≡ 0) }
    {
        self.numbers[(id - self.low) as usize] == 0
    }

    /// Takes the coefficient at an id away.
    pub fn take(&mut self, field: &Field, id: u32) -> u8
        requires low { self.old.low ≤ id }
        requires high { id ≤ self.old.high }
        ensures low { self.new.low ≡ self.old.low }
        ensures high { self.new.high ≡ self.old.high }
        ensures residue { result < field.now }
        ensures sum { Alike nat_eq field.now self.old.total ((id, result) ∷ self.new.total) }
        ensures gone { coefficient nat_eq self.new.total id ≡ 0 }
    {
        let at = (id - self.low) as usize;
        let coef = (self.numbers[at] % u32::from(field.prime())) as u8;
        self.numbers[at] = 0;
        coef
    }

    /// The sum as a vector.
    pub fn into_sparse(self, field: &Field) -> Result<Sparse, Memory>
        ensures { IfOk result (λ v. IsReducedOf ◌<◌ nat_eq field.now v self.total) }
    {
        let terms = collect_terms(*self.numbers.allocator(), field, self.low, &self.numbers)?;
        Sparse::from_list(terms)
    }
}

/// Adds `by` times the terms to the numbers of the ids from `low` on.
fn add_terms(numbers: &mut [u32], low: u32, field: &Field, by: u8, terms: &[Term])
    requires ids { All (λ t. (low ≤ t.0) × (t.0 < low + length numbers.old)) (pairs terms.now) }
    requires narrow { All (λ n. n < 2 ^ 31) numbers.old }
    ensures narrow { All (λ n. n < 2 ^ 31) numbers.new }
    ensures sum { Alike nat_eq field.now (spanned low numbers.new) (spanned low numbers.old ++ scaled by (pairs terms.now)) }
{
    for term in terms {
        let at = (term.id - low) as usize;
        numbers[at] = add_product(field, numbers[at], by, term.coef);
    }
}

/// The sum of a number and a product, reduced where it is wide.
fn add_product(field: &Field, number: u32, by: u8, coef: u8) -> u32
    requires { number < 2 ^ 31 }
    ensures narrow { result < 2 ^ 31 }
    ensures sum { Congruent field.now result (number + by * coef) }
{
    let sum = number + u32::from(by) * u32::from(coef);
    if sum < WIDE {
        sum
    } else {
        sum % u32::from(field.prime())
    }
}

/// The residues of the numbers as terms of the ids from `low` on, by falling id.
fn collect_terms(
    alloc: Global,
    field: &Field,
    low: u32,
    numbers: &[u32],
) -> Result<SmallVec<Term, 4>, Memory>
    requires { low + length numbers.now ≤ 2 ^ 32 }
    ensures { IfOk result (λ terms. IsReducedOf ◌<◌ nat_eq field.now (pairs terms.items) (spanned low numbers.now)) }
{
    let prime = u32::from(field.prime());
    let mut terms = SmallVec::new(alloc);
    terms.reserve(numbers.iter().filter(|number| **number > 0).count())?;
    for at in (0..numbers.len()).rev() {
        let coef = residue(numbers[at], prime);
        if coef == 0 {
            continue;
        }
        terms.push(Term {
            id: low + at as u32,
            coef,
        })?;
    }
    Ok(terms)
}

/// The residue of a number, which is 0 at most ids of a wide span: these take no division.
fn residue(number: u32, prime: u32) -> u8
    requires prime { 0 < prime }
    requires small { prime ≤ 256 }
    ensures { result ≡ number % prime }
{
    if number == 0 {
        0
    } else {
        (number % prime) as u8
    }
}
