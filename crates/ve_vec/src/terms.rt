//! Lists of terms in values of 24 bytes.

ghost use Rattle.std.specs.Prelude.{◌≡◌, ℕ, ◌*◌, ◌%◌, ◌<◌, ◌≤◌, ◌++◌, [], ◌∷◌, All, IfOk, OnOk, OnErr, length, map, nat_eq, slice_set, slice_index_or};
ghost use Rattle.std.specs.List.{insert, remove};
ghost use Rattle.ve_theory.specs.Combinations.{scaled, IsReduced, IsReducedOf};
ghost use Rattle.ve_vec.specs.Terms.{pairs};
ghost use Rattle.ve_vec.specs.Vectors.{numbered};

use crate::Term;
use crate::few::{Few, PLACES};
use crate::merge::{append_scaled, scale_terms};
use crate::number::number_terms;
use smallvec::SmallVec;
use std::alloc::Global;
use std::marker::Model;
use ve_field::Field;
use ve_word::Memory;

/// A list of terms. Up to two stand in the value itself and take no memory.
#[derive(Drop)]
pub(crate) struct Terms {
    alloc: Global,
    held: Held,
}

#[derive(Drop)]
enum Held {
    Few(Few),
    Many(Box<SmallVec<Term, 4>>),
}

impl Model for Terms {
    ghost use Rattle.std.specs.Prelude.{List};
    ghost use Rattle.ve_vec.specs.declared.term.Term.{Term};

    ghost Value = { List Term };

    ghost use Rattle.ve_vec.specs.Held.{IsHeld, held_terms};

    ghost view = { λ t. held_terms t.held };

    ghost invariant = { λ t. IsHeld t.held };
}

impl Terms {
    /// No terms.
    pub(crate) fn new(alloc: Global) -> Terms
        ensures { result ≡ [] }
    {
        Terms {
            alloc,
            held: Held::Few(Few::of(&[])),
        }
    }

    /// One term.
    pub(crate) fn one(alloc: Global, term: Term) -> Terms
        ensures { result ≡ term ∷ [] }
    {
        Terms {
            alloc,
            held: Held::Few(Few::of(&[term])),
        }
    }

    /// The terms of a slice.
    pub(crate) fn from_slice(alloc: Global, terms: &[Term]) -> Result<Terms, Memory>
        ensures { IfOk result (λ t. t ≡ terms.now) }
    {
        let held = if terms.len() <= PLACES {
            Held::Few(Few::of(terms))
        } else {
            Held::Many(Box::new(alloc, SmallVec::from_slice(alloc, terms)?)?)
        };
        Ok(Terms { alloc, held })
    }

    /// The terms of a list, whose room is given back where they stand in the value.
    pub(crate) fn from_list(list: SmallVec<Term, 4>) -> Result<Terms, Memory>
        ensures { IfOk result (λ t. t ≡ list.items) }
    {
        let alloc = *list.allocator();
        let held = if list.len() <= PLACES {
            Held::Few(Few::of(list.as_slice()))
        } else {
            Held::Many(Box::new(alloc, list)?)
        };
        Ok(Terms { alloc, held })
    }

    /// Puts the terms of a list in the place of these.
    pub(crate) fn replace(&mut self, list: SmallVec<Term, 4>) -> Result<(), Memory>
        ensures ok { OnOk result (self.new ≡ list.items) }
        ensures err { OnErr result (self.new ≡ self.old) }
    {
        *self = Terms::from_list(list)?;
        Ok(())
    }

    pub(crate) fn allocator(&self) -> Global {
        self.alloc
    }

    /// The terms in order.
    pub(crate) fn as_slice(&self) -> &[Term]
        ensures { result.now ≡ self.now }
    {
        match &self.held {
            Held::Few(few) => few.as_slice(),
            Held::Many(list) => list.as_slice(),
        }
    }

    /// Takes all terms away. Room of their own is kept.
    pub(crate) fn clear(&mut self)
        ensures { self.new ≡ [] }
    {
        match &mut self.held {
            Held::Few(few) => *few = Few::of(&[]),
            Held::Many(list) => list.clear(),
        }
    }

    /// Puts a term in before the one at `at`. Memory is taken where it is the third one.
    pub(crate) fn insert(&mut self, at: usize, term: Term) -> Result<(), Memory>
        requires { at ≤ length self.old }
        ensures ok { OnOk result (self.new ≡ insert self.old at term) }
        ensures err { OnErr result (self.new ≡ self.old) }
    {
        match &mut self.held {
            Held::Few(few) if few.is_full() => self.insert_anew(at, term),
            Held::Few(few) => {
                few.insert(at, term);
                Ok(())
            }
            Held::Many(list) => insert_in_list(list, at, term),
        }
    }

    /// Puts a term in before the one at `at`, and all terms in a new list.
    fn insert_anew(&mut self, at: usize, term: Term) -> Result<(), Memory>
        requires { at ≤ length self.old }
        ensures ok { OnOk result (self.new ≡ insert self.old at term) }
        ensures err { OnErr result (self.new ≡ self.old) }
    {
        let mut list = SmallVec::from_slice(self.alloc, self.as_slice())?;
        list.insert(at, term)?;
        self.replace(list)
    }

    /// Takes the term at `at` away.
    pub(crate) fn remove(&mut self, at: usize) -> Term
        requires { at < length self.old }
        ensures value { result ≡ slice_index_or self.old at result }
        ensures terms { self.new ≡ remove self.old at }
    {
        match &mut self.held {
            Held::Few(few) => few.remove(at),
            Held::Many(list) => list.remove(at),
        }
    }

    /// Puts another term in the place of the one at `at`.
    pub(crate) fn set(&mut self, at: usize, term: Term)
        requires { at < length self.old }
        ensures { self.new ≡ slice_set self.old at term }
    {
        match &mut self.held {
            Held::Few(few) => few.set(at, term),
            Held::Many(list) => list.as_mut_slice()[at] = term,
        }
    }

    /// Appends `by` times other terms, whose ids are below these.
    pub(crate) fn append_scaled(
        &mut self,
        field: &Field,
        by: u8,
        others: &[Term],
    ) -> Result<(), Memory>
        requires terms { IsReduced ◌<◌ field.now (pairs self.old ++ pairs others.now) }
        requires nonzero { 0 < by }
        requires residue { by < field.now }
        ensures ok { OnOk result (IsReducedOf ◌<◌ nat_eq field.now (pairs self.new) (pairs self.old ++ scaled by (pairs others.now))) }
        ensures err { OnErr result (self.new ≡ self.old) }
    {
        match &mut self.held {
            Held::Few(_) => self.append_scaled_anew(field, by, others),
            Held::Many(list) => append_scaled(list, field, by, others),
        }
    }

    /// Appends `by` times other terms, whose ids are below these, and puts all terms in a new list.
    fn append_scaled_anew(&mut self, field: &Field, by: u8, others: &[Term]) -> Result<(), Memory>
        requires terms { IsReduced ◌<◌ field.now (pairs self.old ++ pairs others.now) }
        requires nonzero { 0 < by }
        requires residue { by < field.now }
        ensures ok { OnOk result (IsReducedOf ◌<◌ nat_eq field.now (pairs self.new) (pairs self.old ++ scaled by (pairs others.now))) }
        ensures err { OnErr result (self.new ≡ self.old) }
    {
        let mut list = SmallVec::from_slice(self.alloc, self.as_slice())?;
        append_scaled(&mut list, field, by, others)?;
        self.replace(list)
    }

    /// Multiplies each coefficient by `by`.
    pub(crate) fn scale(&mut self, field: &Field, by: u8)
        requires fits { IsReduced ◌<◌ field.now (pairs self.old) }
        requires nonzero { 0 < by }
        requires residue { by < field.now }
        ensures fits { IsReduced ◌<◌ field.now (pairs self.new) }
        ensures product { pairs self.new ≡ map (λ t. (t.0, (by * t.1) % field.now)) (pairs self.old) }
    {
        match &mut self.held {
            Held::Few(few) => few.scale(field, by),
            Held::Many(list) => scale_terms(list.as_mut_slice(), field, by),
        }
    }

    /// Puts the number of each id in its place.
    pub(crate) fn renumber(&mut self, numbers: &[u32])
        requires { All (λ t. t.0 < length numbers.now) (pairs self.old) }
        ensures { pairs self.new ≡ numbered numbers.now (pairs self.old) }
    {
        match &mut self.held {
            Held::Few(few) => few.renumber(numbers),
            Held::Many(list) => number_terms(list.as_mut_slice(), numbers),
        }
    }
}

/// Puts a term in before the one at `at`.
fn insert_in_list(list: &mut SmallVec<Term, 4>, at: usize, term: Term) -> Result<(), Memory>
    requires { at ≤ length list.old.items }
    ensures ok { OnOk result (list.new.items ≡ insert list.old.items at term) }
    ensures err { OnErr result (list.new ≡ list.old) }
{
    if at == list.len() {
        list.push(term)?;
    } else {
        list.insert(at, term)?;
    }
    Ok(())
}
