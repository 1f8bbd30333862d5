ghost use Rattle.std.specs.Prelude.{◌≡◌, ℕ, ◌<◌, ◌≤◌, ◌∷◌, ◌++◌, [], All, Bool, IfNone, IfSome, IsTrue, OnOk, nat_eq};
ghost use Rattle.std.proofs.Props.{props};
ghost use Rattle.std.specs.BinaryHeap.{IsHeap, heap_items};
ghost use Rattle.std.specs.List.Sorted.{IsPermutation};
ghost use Rattle.std.specs.Ordering.{nat_cmp, ordering_then};
ghost use Rattle.ve_theory.specs.Combinations.{scaled, Alike, IsReduced};
ghost use Rattle.ve_vec.specs.Vectors.{AllIds};

use std::alloc::Global;
use std::collections::BinaryHeap;
use ve_field::Field;
use ve_vec::Sparse;
use ve_word::Memory;

/// A sum of terms that stand in no order, but for the greatest id, which is found at once. An id may stand in many of them.
#[derive(Drop)]
pub(crate) struct TermHeap {
    field: Field,
    terms: BinaryHeap<(u32, u8)>,
    ghost ordered: { IsHeap (λ s t. ordering_then (nat_cmp s.0 t.0) (nat_cmp s.1 t.1)) (heap_items terms) } by { Prim.hlevel props },
    ghost residues: { All (λ t. t.1 < field) (heap_items terms) } by { Prim.hlevel props },
}

impl TermHeap {
    /// The empty sum.
    pub(crate) fn new(alloc: Global, field: Field) -> TermHeap
        ensures field { result.field ≡ field }
        ensures empty { heap_items result.terms ≡ [] }
    {
        TermHeap {
            field,
            terms: BinaryHeap::new(alloc),
        }
    }

    /// Adds `by` times the vector.
    pub(crate) fn push_scaled(&mut self, by: u8, vector: &Sparse) -> Result<(), Memory>
        requires fits { IsReduced ◌<◌ self.old.field vector.now }
        requires residue { by < self.old.field }
        ensures field { self.new.field ≡ self.old.field }
        ensures sum { OnOk result (Alike nat_eq self.old.field (heap_items self.new.terms) (heap_items self.old.terms ++ scaled by vector.now)) }
        ensures ids { OnOk result ((among : ℕ → Bool) → AllIds among (heap_items self.old.terms) → AllIds among vector.now
            → AllIds among (heap_items self.new.terms)) }
    {
        if by == 0 {
            return Ok(());
        }
        for at in 0..vector.len() {
            let term = vector.term(at);
            let coef = self.field.mul(by, term.coef);
            self.terms.push((term.id, coef))?;
        }
        Ok(())
    }

    /// The greatest id, or `None` where there is no term.
    pub(crate) fn greatest(&self) -> Option<u32>
        ensures none { IfNone result (heap_items self.now.terms ≡ []) }
        ensures upper { IfSome result (λ id. All (λ t. t.0 ≤ id) (heap_items self.now.terms)) }
        ensures ids { IfSome result (λ id. (among : ℕ → Bool) → AllIds among (heap_items self.now.terms) → IsTrue (among id)) }
    {
        let (id, _) = self.terms.peek()?;
        Some(*id)
    }

    /// Takes one term of an id that no other is above, where there is one.
    pub(crate) fn pop_at(&mut self, id: u32) -> Option<u8>
        requires { All (λ t. t.0 ≤ id) (heap_items self.old.terms) }
        ensures field { self.new.field ≡ self.old.field }
        ensures residue { IfSome result (λ c. c < self.old.field) }
        ensures taken { IfSome result (λ c. IsPermutation (heap_items self.old.terms) ((id, c) ∷ heap_items self.new.terms)) }
        ensures same { IfNone result (heap_items self.new.terms ≡ heap_items self.old.terms) }
        ensures below { IfNone result (All (λ t. t.0 < id) (heap_items self.new.terms)) }
    {
        let (next, _) = self.terms.peek()?;
        if *next != id {
            return None;
        }
        let (_, coef) = self.terms.pop()?;
        Some(coef)
    }
}
