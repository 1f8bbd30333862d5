//! Up to two terms.

ghost use Rattle.std.specs.Prelude.{◌≡◌, ℕ, ◌*◌, ◌%◌, ◌<◌, ◌≤◌, ◌↔◌, All, IsTrue, length, map, slice_index_or, slice_set};
ghost use Rattle.std.specs.List.{insert, remove};
ghost use Rattle.ve_theory.specs.Combinations.{IsReduced};
ghost use Rattle.ve_vec.specs.Held.{IsFew, few_terms};
ghost use Rattle.ve_vec.specs.Terms.{pairs};
ghost use Rattle.ve_vec.specs.Vectors.{numbered};

use crate::Term;
use crate::merge::scale_terms;
use crate::number::number_terms;
use ve_field::Field;

/// How many places there are.
pub(crate) const PLACES: usize = 2;

/// The terms in the first `count` of two places.
#[derive(Clone, Copy)]
pub(crate) struct Few {
    places: [Term; PLACES],
    count: u8,
}

impl Few {
    /// The terms of a slice.
    pub(crate) fn of(terms: &[Term]) -> Few
        requires { length terms.now ≤ 2 }
        ensures few { IsFew result }
        ensures terms { few_terms result ≡ terms.now }
    {
        match terms {
            [first, second] => Few {
                places: [*first, *second],
                count: 2,
            },
            [term] => Few {
                places: [*term; PLACES],
                count: 1,
            },
            _ => Few {
                places: [Term::default(); PLACES],
                count: 0,
            },
        }
    }

    /// Whether no place is left.
    pub(crate) fn is_full(&self) -> bool
        requires { IsFew self.now }
        ensures { IsTrue result ↔ (2 ≤ length (few_terms self.now)) }
    {
        usize::from(self.count) == PLACES
    }

    /// The terms in order.
    pub(crate) fn as_slice(&self) -> &[Term]
        requires { IsFew self.now }
        ensures { result.now ≡ few_terms self.now }
    {
        &self.places[..usize::from(self.count)]
    }

    /// Puts a term in before the one at `at`.
    pub(crate) fn insert(&mut self, at: usize, term: Term)
        requires few { IsFew self.old }
        requires room { length (few_terms self.old) < 2 }
        requires within { at ≤ length (few_terms self.old) }
        ensures few { IsFew self.new }
        ensures terms { few_terms self.new ≡ insert (few_terms self.old) at term }
    {
        let [first, _] = self.places;
        self.places = if at == 0 {
            [term, first]
        } else {
            [first, term]
        };
        self.count += 1;
    }

    /// Takes the term at `at` away.
    pub(crate) fn remove(&mut self, at: usize) -> Term
        requires few { IsFew self.old }
        requires within { at < length (few_terms self.old) }
        ensures few { IsFew self.new }
        ensures value { result ≡ slice_index_or (few_terms self.old) at result }
        ensures terms { few_terms self.new ≡ remove (few_terms self.old) at }
    {
        let [first, second] = self.places;
        let (gone, kept) = if at == 0 {
            (first, second)
        } else {
            (second, first)
        };
        self.places = [kept; PLACES];
        self.count -= 1;
        gone
    }

    /// Puts another term in the place of the one at `at`.
    pub(crate) fn set(&mut self, at: usize, term: Term)
        requires few { IsFew self.old }
        requires within { at < length (few_terms self.old) }
        ensures few { IsFew self.new }
        ensures terms { few_terms self.new ≡ slice_set (few_terms self.old) at term }
    {
        self.places[at] = term;
    }

    /// Multiplies each coefficient by `by`.
    pub(crate) fn scale(&mut self, field: &Field, by: u8)
        requires few { IsFew self.old }
        requires fits { IsReduced ◌<◌ field.now (pairs (few_terms self.old)) }
        requires nonzero { 0 < by }
        requires residue { by < field.now }
        ensures few { IsFew self.new }
        ensures fits { IsReduced ◌<◌ field.now (pairs (few_terms self.new)) }
        ensures product { pairs (few_terms self.new) ≡ map (λ t. (t.0, (by * t.1) % field.now)) (pairs (few_terms self.old)) }
    {
        let count = usize::from(self.count);
        scale_terms(&mut self.places[..count], field, by);
    }

    /// Puts the number of each id in its place.
    pub(crate) fn renumber(&mut self, numbers: &[u32])
        requires few { IsFew self.old }
        requires ids { All (λ t. t.0 < length numbers.now) (pairs (few_terms self.old)) }
        ensures few { IsFew self.new }
        ensures numbered { pairs (few_terms self.new) ≡ numbered numbers.now (pairs (few_terms self.old)) }
    {
        let count = usize::from(self.count);
        number_terms(&mut self.places[..count], numbers);
    }
}
