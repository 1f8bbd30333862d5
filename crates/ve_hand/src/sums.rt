//! Sums of what was read for the ids of a vector.

ghost use Rattle.std.specs.Prelude.{◌<◌, All, IfOk, map, nat_eq};
ghost use Rattle.ve_theory.specs.Combinations.{IsReduced, IsReducedOf};
ghost use Rattle.ve_machine.specs.HandSteps.{multiplied_by, repaired};
ghost use Rattle.ve_hand.specs.Fits.{FitsFound};
ghost use Rattle.ve_hand.specs.Views.{found_of};

use crate::found::{Found, forward_at, row_at};
use std::alloc::Global;
use ve_field::Field;
use ve_vec::Sparse;
use ve_word::Memory;

/// The vector with the forwards that were read in their ids' places.
pub(crate) fn repaired_sum(
    alloc: Global,
    field: &Field,
    founds: &[Found],
    vector: &Sparse,
) -> Result<Sparse, Memory>
    requires founds { All (FitsFound field.now) (map found_of founds.now) }
    requires vector { IsReduced ◌<◌ field.now vector.now }
    ensures { IfOk result (λ v. IsReducedOf ◌<◌ nat_eq field.now v (repaired (map found_of founds.now) vector.now)) }
{
    field.has_prime();
    // The ids that stay are in order, so that each goes to the end.
    let mut kept = Sparse::zero(alloc);
    let mut brought = Sparse::zero(alloc);
    for at in 0..vector.len() {
        let term = vector.term(at);
        match forward_at(founds, at) {
            Some(forward) => brought.add_scaled(field, term.coef, forward)?,
            None => kept.add_scaled_term(field, 1, term)?,
        }
    }
    kept.add_scaled(field, 1, &brought)?;
    Ok(kept)
}

/// The sum of the rows that were read, each times its id's coefficient.
pub(crate) fn multiplied_sum(
    alloc: Global,
    field: &Field,
    founds: &[Found],
    vector: &Sparse,
) -> Result<Sparse, Memory>
    requires founds { All (FitsFound field.now) (map found_of founds.now) }
    requires vector { IsReduced ◌<◌ field.now vector.now }
    ensures { IfOk result (λ v. IsReducedOf ◌<◌ nat_eq field.now v (multiplied_by (map found_of founds.now) vector.now)) }
{
    let mut sum = Sparse::zero(alloc);
    for at in 0..vector.len() {
        let term = vector.term(at);
        if let Some(row) = row_at(founds, at) {
            sum.add_scaled(field, term.coef, row)?;
        }
    }
    Ok(sum)
}
