ghost use Rattle.std.specs.Prelude.{◌≡◌, ℕ, ◌<◌, ◌≤◌, ◌+◌, ◌^◌, ◌∷◌, ◌++◌, [], All, Bool, IfNone, IfOk, IfSome, IsTrue, OnOk, drop, length, nat_eq};
ghost use Rattle.ve_theory.specs.Combinations.{scaled, Alike, IsReduced};
ghost use Rattle.ve_vec.specs.Vectors.{AllIds};
ghost use Rattle.ve_settle.specs.Reduced.{IsReduced-prop};

use crate::heap::TermHeap;
use std::alloc::Global;
use ve_field::Field;
use ve_vec::{DenseSum, Sparse, Term};
use ve_word::Memory;

// Vectors of up to this many terms are kept loose, since a merge goes over all sorted terms.
const SHORT: usize = 4;

// So are those that are more than this many times shorter than what is left of the sorted one.
const MUCH_SHORTER: usize = 32;

// Up to this many sorted terms are changed in place, so that short vectors take no memory.
const FEW: usize = 16;

/// A sum whose terms are taken by falling id. As long as they are few, they stand in order. Of many, short vectors are kept loose in a
/// heap, and wide ones are merged in order.
#[derive(Drop)]
pub(crate) struct FallingSum {
    field: Field,
    // The terms from the place `taken` on are left of this vector.
    sorted: Sparse,
    taken: usize,
    loose: TermHeap,
    ghost reduced: { IsReduced ◌<◌ field sorted } by { IsReduced-prop field sorted },
    ghost within: { taken ≤ length sorted },
    ghost same: { loose.field ≡ field },
}

impl FallingSum {
    ghost use Rattle.ve_settle.specs.Falling.{left_of};

    /// The sum that is a vector.
    pub(crate) fn new(alloc: Global, field: Field, vector: Sparse) -> FallingSum
        requires { IsReduced ◌<◌ field vector }
        ensures field { result.field ≡ field }
        ensures whole { left_of result ≡ vector }
    {
        FallingSum {
            field,
            sorted: vector,
            taken: 0,
            loose: TermHeap::new(alloc, field),
        }
    }

    /// Adds `by` times the vector.
    pub(crate) fn push_scaled(&mut self, by: u8, vector: &Sparse) -> Result<(), Memory>
        requires fits { IsReduced ◌<◌ self.old.field vector.now }
        requires residue { by < self.old.field }
        ensures field { self.new.field ≡ self.old.field }
        ensures sum { OnOk result (Alike nat_eq self.old.field (left_of self.new) (left_of self.old ++ scaled by vector.now)) }
        ensures ids { OnOk result ((among : ℕ → Bool) → AllIds among (left_of self.old) → AllIds among vector.now
            → AllIds among (left_of self.new)) }
    {
        if self.has_few() && vector.len() <= SHORT {
            self.sorted.add_scaled(&self.field, by, vector)?;
            return Ok(());
        }
        let left = self.sorted.len() - self.taken;
        if vector.len() <= SHORT || vector.len() < left / MUCH_SHORTER {
            self.loose.push_scaled(by, vector)?;
            return Ok(());
        }
        let mut sorted = self.sorted.rest(self.taken)?;
        sorted.add_scaled(&self.field, by, vector)?;
        self.taken = 0;
        self.sorted = sorted;
        Ok(())
    }

    /// Takes all terms of the greatest id away, and answers their sum.
    pub(crate) fn pop(&mut self) -> Option<Term>
        ensures field { self.new.field ≡ self.old.field }
        ensures none { IfNone result (left_of self.old ≡ []) }
        ensures residue { IfSome result (λ t. t.coef < self.old.field) }
        ensures sum { IfSome result (λ t. Alike nat_eq self.old.field (left_of self.old) ((t.id, t.coef) ∷ left_of self.new)) }
        ensures falls { IfSome result (λ t. All (λ s. s.0 < t.id) (left_of self.new)) }
        ensures ids { IfSome result (λ t. (among : ℕ → Bool) → AllIds among (left_of self.old)
            → IsTrue (among t.id) × AllIds among (left_of self.new)) }
    {
        let id = self.greatest()?;
        let mut coef = self.take_sorted(id);
        while let Some(further) = self.loose.pop_at(id) {
            coef = self.field.add(coef, further);
        }
        Some(Term { id, coef })
    }

    /// What is left, as a sum over the ids up to `bound`, which is above them all.
    pub(crate) fn into_dense(mut self, alloc: Global, bound: u32) -> Result<DenseSum, Memory>
        requires { All (λ t. t.0 < bound) (left_of self) }
        ensures low { IfOk result (λ s. s.low ≡ 0) }
        ensures high { IfOk result (λ s. s.high ≡ bound) }
        ensures sum { IfOk result (λ s. Alike nat_eq self.field s.total (left_of self)) }
    {
        let mut sum = DenseSum::new(alloc, 0, bound)?;
        let sorted = self.take_sorted_rest()?;
        sum.add_scaled(&self.field, 1, &sorted);
        while let Some(term) = self.pop() {
            sum.add_scaled(&self.field, term.coef, &Sparse::unit(alloc, term.id));
        }
        Ok(sum)
    }

    /// Takes all sorted terms that are left, so that loose ones alone remain.
    fn take_sorted_rest(&mut self) -> Result<Sparse, Memory>
        ensures field { self.new.field ≡ self.old.field }
        ensures whole { IfOk result (λ v. left_of self.old ≡ v ++ left_of self.new) }
    {
        let rest = self.sorted.rest(self.taken)?;
        self.taken = self.sorted.len();
        Ok(rest)
    }

    /// The greatest id, or `None` where no term is left.
    fn greatest(&self) -> Option<u32>
        ensures none { IfNone result (left_of self.now ≡ []) }
        ensures upper { IfSome result (λ id. All (λ t. t.0 ≤ id) (left_of self.now)) }
        ensures ids { IfSome result (λ id. (among : ℕ → Bool) → AllIds among (left_of self.now) → IsTrue (among id)) }
    {
        let loose = self.loose.greatest();
        if self.taken == self.sorted.len() {
            return loose;
        }
        let next = self.sorted.term(self.taken).id;
        match loose {
            Some(id) => Some(id.max(next)),
            None => Some(next),
        }
    }

    /// Takes the sorted term of an id that no other is above, and answers its coefficient, which is 0 where there is no such term.
    fn take_sorted(&mut self, id: u32) -> u8
        requires { All (λ t. t.0 ≤ id) (left_of self.old) }
        ensures field { self.new.field ≡ self.old.field }
        ensures loose { self.new.loose ≡ self.old.loose }
        ensures residue { result < self.old.field }
        ensures sum { Alike nat_eq self.old.field (left_of self.old) ((id, result) ∷ left_of self.new) }
        ensures below { All (λ t. t.0 < id) (drop self.new.taken self.new.sorted) }
        ensures ids { (among : ℕ → Bool) → AllIds among (left_of self.old) → AllIds among (left_of self.new) }
    {
        self.field.has_prime();
        if self.taken == self.sorted.len() {
            return 0;
        }
        let next = self.sorted.term(self.taken);
        if next.id != id {
            return 0;
        }
        self.leave_next();
        next.coef
    }

    /// Leaves the next sorted term out.
    fn leave_next(&mut self)
        requires next { self.old.taken < length self.old.sorted }
        requires room { self.old.taken + 1 < 2 ^ 64 }
        ensures field { self.new.field ≡ self.old.field }
        ensures loose { self.new.loose ≡ self.old.loose }
        ensures rest { drop self.new.taken self.new.sorted ≡ drop (self.old.taken + 1) self.old.sorted }
    {
        if self.has_few() {
            self.sorted.take_leading();
        } else {
            self.taken += 1;
        }
    }

    /// Whether the sorted terms are few, and all of them are left.
    fn has_few(&self) -> bool
        ensures { IsTrue result → self.now.taken ≡ 0 }
    {
        self.taken == 0 && self.sorted.len() <= FEW
    }
}
