ghost use Rattle.std.specs.Prelude.{◌≡◌, ℕ, ◌<◌, ◌≤◌, ◌↔◌, Bool, [], ◌∷◌, ◌++◌, IsTrue, IfSome, IsNone, IfOk, OnOk, OnErr, All, drop, length, map, nat_eq, slice_get};
ghost use Rattle.ve_theory.specs.Combinations.{unit, scaled, coefficient, AllBefore, IsReduced, IsReducedOf};
ghost use Rattle.ve_vec.specs.Terms.{pairs};
ghost use Rattle.ve_vec.specs.Vectors.{AllIds, IsVector, numbered, without};

use crate::Term;
use crate::insert::insert_term;
use crate::merge::{append_sum, comes_before};
use crate::search::{split_around, split_at_id};
use crate::terms::Terms;
use smallvec::SmallVec;
use std::alloc::Global;
use std::marker::Model;
use ve_field::Field;
use ve_word::Memory;

/// A vector as the terms of its nonzero coefficients, by falling id. Up to two terms take no memory.
#[derive(Drop)]
pub struct Sparse {
    terms: Terms,
}

impl Model for Sparse {
    ghost use Rattle.std.specs.Prelude.{ℕ};
    ghost use Rattle.ve_theory.specs.Combinations.{Combination};

    ghost Value = { Combination ℕ };

    ghost use Rattle.ve_vec.specs.Terms.{pairs};
    ghost use Rattle.ve_vec.specs.Vectors.{IsVector};

    ghost view = { λ v. pairs v.terms };

    ghost invariant = { λ v. IsVector (pairs v.terms) };
}

impl Sparse {
    /// The zero vector.
    pub fn zero(alloc: Global) -> Sparse
        ensures value { result ≡ [] }
        ensures fits { (p : ℕ) → IsReduced ◌<◌ p result }
    {
        Sparse {
            terms: Terms::new(alloc),
        }
    }

    /// The vector with the coefficient 1 at `id`.
    pub fn unit(alloc: Global, id: u32) -> Sparse
        ensures value { result ≡ unit id }
        ensures fits { (p : ℕ) → 1 < p → IsReduced ◌<◌ p result }
    {
        Sparse {
            terms: Terms::one(alloc, Term { id, coef: 1 }),
        }
    }

    /// The vector of these terms.
    pub(crate) fn from_list(list: SmallVec<Term, 4>) -> Result<Sparse, Memory>
        requires { IsVector (pairs list.items) }
        ensures { IfOk result (λ v. v ≡ pairs list.items) }
    {
        let terms = Terms::from_list(list)?;
        Ok(Sparse { terms })
    }

    /// Whether each coefficient is a residue of the field.
    pub fn fits(&self, field: &Field) -> bool
        ensures residues { IsTrue result ↔ All (λ t. t.1 < field.now) self.now }
        ensures reduced { IsTrue result → IsReduced ◌<◌ field.now self.now }
    {
        all_residues(self.terms.as_slice(), field)
    }

    /// How many terms there are.
    pub fn len(&self) -> usize
        ensures { result ≡ length self.now }
    {
        self.terms.as_slice().len()
    }

    /// The terms, by falling id.
    pub fn terms(&self) -> &[Term]
        ensures { pairs result.now ≡ self.now }
    {
        self.terms.as_slice()
    }

    /// The term at `at`, counted from the greatest id.
    pub fn term(&self, at: usize) -> Term
        requires { at < length self.now }
        ensures { slice_get self.now at ≡ Some (result.id, result.coef) }
    {
        self.terms.as_slice()[at]
    }

    /// The term of greatest id, or `None` where the vector is zero.
    pub fn leading(&self) -> Option<Term>
        ensures zero { IsNone result ↔ (self.now ≡ []) }
        ensures first { IfSome result (λ t. slice_get self.now 0 ≡ Some (t.id, t.coef)) }
        ensures nonzero { IfSome result (λ t. 0 < t.coef) }
        ensures greatest { IfSome result (λ t. AllBefore ◌≤◌ t.id self.now) }
    {
        self.terms.as_slice().first().copied()
    }

    /// Takes the term of greatest id away. `None` where the vector is zero.
    pub fn take_leading(&mut self) -> Option<Term>
        ensures zero { IsNone result ↔ (self.old ≡ []) }
        ensures same { IsNone result → self.new ≡ self.old }
        ensures first { IfSome result (λ t. self.old ≡ (t.id, t.coef) ∷ self.new) }
    {
        if self.terms.as_slice().is_empty() {
            return None;
        }
        Some(self.terms.remove(0))
    }

    /// Takes all terms away. The room that they took is kept for others.
    pub fn clear(&mut self)
        ensures value { self.new ≡ [] }
        ensures fits { (p : ℕ) → IsReduced ◌<◌ p self.new }
    {
        self.terms.clear();
    }

    /// The coefficient at `id`, which is 0 where there is no such term.
    pub fn coef_of(&self, id: u32) -> u8
        ensures { result ≡ coefficient nat_eq self.now id }
    {
        match split_around(self.terms.as_slice(), id) {
            Some((_, coef, _)) => coef,
            None => 0,
        }
    }

    /// Multiplies each coefficient by `by`.
    pub fn scale(&mut self, field: &Field, by: u8)
        requires fits { IsReduced ◌<◌ field.now self.old }
        requires residue { by < field.now }
        ensures product { IsReducedOf ◌<◌ nat_eq field.now self.new (scaled by self.old) }
        ensures zero { by ≡ 0 → self.new ≡ [] }
        ensures same_ids { 0 < by → map (λ t. t.0) self.new ≡ map (λ t. t.0) self.old }
    {
        if by == 0 {
            self.terms = Terms::new(self.terms.allocator());
            return;
        }
        self.terms.scale(field, by);
    }

    /// The same vector once more.
    pub fn copy(&self) -> Result<Sparse, Memory>
        ensures { IfOk result (λ v. v ≡ self.now) }
    {
        let terms = Terms::from_slice(self.terms.allocator(), self.terms.as_slice())?;
        Ok(Sparse { terms })
    }

    /// The terms from a place on, as a vector of their own.
    pub fn rest(&self, from: usize) -> Result<Sparse, Memory>
        requires { from ≤ length self.now }
        ensures rest { IfOk result (λ v. v ≡ drop from self.now) }
        ensures fits { IfOk result (λ v. (p : ℕ) → IsReduced ◌<◌ p self.now → IsReduced ◌<◌ p v) }
    {
        let terms = Terms::from_slice(self.terms.allocator(), &self.terms.as_slice()[from..])?;
        Ok(Sparse { terms })
    }

    /// Adds `by` times `other`.
    pub fn add_scaled(&mut self, field: &Field, by: u8, other: &Sparse) -> Result<(), Memory>
        requires fits { IsReduced ◌<◌ field.now self.old }
        requires other_fits { IsReduced ◌<◌ field.now other.now }
        requires residue { by < field.now }
        ensures ok { OnOk result (IsReducedOf ◌<◌ nat_eq field.now self.new (self.old ++ scaled by other.now)) }
        ensures err { OnErr result (self.new ≡ self.old) }

        // The sum has no id that neither of the two has.
        ensures ids { OnOk result ((among : ℕ → Bool) → AllIds among self.old → AllIds among other.now → AllIds among self.new) }
    {
        let others = other.terms.as_slice();
        if by == 0 || others.is_empty() {
            return Ok(());
        }
        // A term finds its place without a new list.
        if let [term] = others {
            insert_term(&mut self.terms, field, term.id, field.mul(by, term.coef))?;
            return Ok(());
        }
        if comes_before(self.terms.as_slice(), others) {
            self.terms.append_scaled(field, by, others)?;
            return Ok(());
        }
        let mut sum = SmallVec::new(self.terms.allocator());
        append_sum(&mut sum, field, by, self.terms.as_slice(), others)?;
        self.terms.replace(sum)?;
        Ok(())
    }

    /// Adds `by` times a term. Up to two terms take no memory.
    pub fn add_scaled_term(&mut self, field: &Field, by: u8, term: Term) -> Result<(), Memory>
        requires fits { IsReduced ◌<◌ field.now self.old }
        requires term { term.coef < field.now }
        requires residue { by < field.now }
        ensures ok { OnOk result (IsReducedOf ◌<◌ nat_eq field.now self.new (self.old ++ scaled by ((term.id, term.coef) ∷ []))) }
        ensures err { OnErr result (self.new ≡ self.old) }
    {
        let coef = field.mul(by, term.coef);
        if coef != 0 {
            insert_term(&mut self.terms, field, term.id, coef)?;
        }
        Ok(())
    }

    /// Takes the term of `dead` away, and adds its coefficient times `by`.
    pub fn substitute(&mut self, field: &Field, dead: u32, by: &Sparse) -> Result<(), Memory>
        requires fits { IsReduced ◌<◌ field.now self.old }
        requires by_fits { IsReduced ◌<◌ field.now by.now }
        ensures ok { OnOk result (IsReducedOf ◌<◌ nat_eq field.now self.new
            (without dead self.old ++ scaled (coefficient nat_eq self.old dead) by.now)) }
        ensures err { OnErr result (self.new ≡ self.old) }

        // The sum has no id that neither the vector without `dead` nor `by` has.
        ensures ids { OnOk result ((among : ℕ → Bool) → AllIds among (without dead self.old) → AllIds among by.now → AllIds among self.new) }
    {
        let Some((above, coef, below)) = split_around(self.terms.as_slice(), dead) else {
            return Ok(());
        };
        let (higher, lower) = split_at_id(by.terms.as_slice(), dead);
        let mut sum = SmallVec::new(self.terms.allocator());
        append_sum(&mut sum, field, coef, above, higher)?;
        append_sum(&mut sum, field, coef, below, lower)?;
        self.terms.replace(sum)?;
        Ok(())
    }

    /// Puts the number of each id in its place. The numbers of the vector's ids have the order of the ids.
    pub fn renumber(&mut self, numbers: &[u32])
        requires ids { All (λ t. t.0 < length numbers.now) self.old }
        requires order { IsVector (numbered numbers.now self.old) }
        ensures { self.new ≡ numbered numbers.now self.old }
    {
        self.terms.renumber(numbers);
    }
}

fn all_residues(terms: &[Term], field: &Field) -> bool
    ensures { IsTrue result ↔ All (λ (t : Term). t.coef < field.now) terms.now }
{
    terms.iter().all(|term| field.is_residue(term.coef))
}
