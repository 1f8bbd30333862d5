//! Hands where a part is traced.

ghost use Rattle.std.specs.Prelude.{◌≡◌, ◌≢◌, [], IfOk, OnErr, OnOk, slice_get};
ghost use Rattle.ve_machine.specs.Seats.{opened_state};
ghost use Rattle.ve_machine.specs.HandSteps.{Applies, read_hand};
ghost use Rattle.ve_hand.specs.Fits.{FitsHand};
ghost use Rattle.ve_hand.specs.Outcomes.{AppliesHand, RepairsHand};
ghost use Rattle.ve_hand.specs.Views.{stage_of, tracing_of};

use crate::part::Part;
use crate::read_vector::ReadVector;
use crate::stage::{Stage, next_stage};
use std::alloc::Global;
use std::collections::VecDeque;
use std::mem;
use ve_field::Field;
use ve_table::Table;
use ve_vec::Sparse;
use ve_word::Memory;

/// A part with the letters that are left of it, and the product of those before them; the sum of the parts before it, and the
/// parts after it.
#[derive(Drop)]
pub(crate) struct Tracing {
    pub(crate) sum: Sparse,
    pub(crate) coef: u8,
    pub(crate) parts: VecDeque<Part>,
    pub(crate) product: ReadVector,
    pub(crate) letters: VecDeque<u8>,
}

impl Tracing {
    /// Reads for each id of the product, with the letter that is next.
    pub(crate) fn read(&mut self, alloc: Global, table: &Table) -> Result<(), Memory>
        ensures ok { OnOk result (tracing_of self.new ≡ read_hand (opened_state table.now 0) (tracing_of self.old)) }
        ensures err { OnErr result (self.new ≡ self.old) }
    {
        let letter = next_letter(&self.letters);
        self.product.read(alloc, table, letter)?;
        Ok(())
    }

    /// Puts the forwards that were read in their ids' places. Whether there were any.
    pub(crate) fn repair(&mut self, alloc: Global, field: &Field) -> Result<bool, Memory>
        requires { FitsHand field.now (tracing_of self.old) }
        ensures ok { IfOk result (λ had. RepairsHand field.now (tracing_of self.old) had (tracing_of self.new)) }
        ensures err { OnErr result (self.new ≡ self.old) }
    {
        let had = self.product.repair(alloc, field)?;
        Ok(had)
    }

    /// Multiplies the product by the letter that is next. Whether a row was read for each of its ids.
    pub(crate) fn multiply(&mut self, alloc: Global, field: &Field) -> Result<bool, Memory>
        requires fits { FitsHand field.now (tracing_of self.old) }
        requires letter { self.old.letters.items ≢ [] }
        ensures ok { IfOk result (λ had. AppliesHand field.now (tracing_of self.old) had (tracing_of self.new)) }
        ensures err { OnErr result (self.new ≡ self.old) }
    {
        if !self.product.multiply(alloc, field)? {
            return Ok(false);
        }
        self.letters.pop_front();
        Ok(true)
    }

    /// Adds the product of a part that is traced to the sum: the stage where the next part comes.
    pub(crate) fn sum_part(&mut self, alloc: Global, field: &Field) -> Result<Stage, Memory>
        requires fits { FitsHand field.now (tracing_of self.old) }
        requires traced { self.old.letters.items ≡ [] }
        ensures ok { IfOk result (λ next. Applies field.now (tracing_of self.old) (stage_of next)) }
        ensures err { OnErr result (self.new ≡ self.old) }
    {
        self.sum.add_scaled(field, self.coef, &self.product.vector)?;
        let sum = mem::replace(&mut self.sum, Sparse::zero(alloc));
        let parts = mem::replace(&mut self.parts, VecDeque::new(alloc));
        Ok(next_stage(alloc, sum, parts))
    }
}

/// The first of the letters.
fn next_letter(letters: &VecDeque<u8>) -> Option<u8>
    ensures { slice_get letters.now.items 0 ≡ result }
{
    letters.front().copied()
}
