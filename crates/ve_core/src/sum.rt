//! The vectors in the hands of seats that have all summed.

ghost use Rattle.std.specs.Prelude.{◌≡◌, ℕ, IfSome, IsNone};
ghost use Rattle.ve_theory.specs.Answers.{Row};
ghost use Rattle.ve_machine.specs.Hands.{Reading, empty_hand, summed_hand};
ghost use Rattle.ve_machine.specs.Allowed.{HasSum};
ghost use Rattle.ve_hand.specs.Fits.{FitsHand};

use crate::CoreState;
use std::alloc::Global;
use std::mem;
use ve_hand::Hand;
use ve_vec::Sparse;

impl CoreState {
    /// The vector in the seat's hand, once all is summed.
    pub(crate) fn sum(&self, seat: u32) -> Option<&Sparse>
        ensures some { IfSome result (λ v. HasSum self.now seat v.now) }
        ensures none { IsNone result → (v : Row) → ¬ HasSum self.now seat v }
    {
        self.hands.get(seat as usize)?.sum()
    }
}

/// Takes the vector out of a hand that has all summed.
pub(crate) fn take_sum(alloc: Global, hand: &mut Hand) -> Sparse
    requires { (v : Row) × ((reading : Reading) × (hand.old ≡ summed_hand v reading)) }
    ensures sum { (reading : Reading) × (hand.old ≡ summed_hand result reading) }
    ensures empty { hand.new ≡ empty_hand }
    ensures fits { (p : ℕ) → FitsHand p hand.new }
{
    mem::replace(hand, Hand::empty(alloc)).into_sum().unwrap()
}
