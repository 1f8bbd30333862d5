//! Multiples of vectors, and sums of them.

ghost use Rattle.std.specs.Prelude.{◌<◌, ◌++◌, IfOk, OnOk, nat_eq};
ghost use Rattle.ve_theory.specs.Combinations.{IsReduced, IsReducedOf, scaled};

use ve_field::Field;
use ve_vec::Sparse;
use ve_word::Memory;

/// A residue times a row.
pub(crate) fn multiple(field: &Field, by: u8, row: &Sparse) -> Result<Sparse, Memory>
    requires row { IsReduced ◌<◌ field.now row.now }
    requires residue { by < field.now }
    ensures { IfOk result (λ v. IsReducedOf ◌<◌ nat_eq field.now v (scaled by row.now)) }
{
    let mut product = row.copy()?;
    multiply(&mut product, field, by);
    Ok(product)
}

/// Adds a multiple of a vector, which is moved where the sum is still zero.
pub(crate) fn add_moved(
    sum: &mut Sparse,
    field: &Field,
    by: u8,
    mut vector: Sparse,
) -> Result<(), Memory>
    requires sum { IsReduced ◌<◌ field.now sum.old }
    requires vector { IsReduced ◌<◌ field.now vector }
    requires residue { by < field.now }
    ensures { OnOk result (IsReducedOf ◌<◌ nat_eq field.now sum.new (sum.old ++ scaled by vector)) }
{
    if sum.len() > 0 {
        sum.add_scaled(field, by, &vector)?;
        return Ok(());
    }
    multiply(&mut vector, field, by);
    *sum = vector;
    Ok(())
}

/// Multiplies a vector by a residue, which is 1 for the most part.
fn multiply(vector: &mut Sparse, field: &Field, by: u8)
    requires vector { IsReduced ◌<◌ field.now vector.old }
    requires residue { by < field.now }
    ensures { IsReducedOf ◌<◌ nat_eq field.now vector.new (scaled by vector.old) }
{
    if by != 1 {
        vector.scale(field, by);
    }
}
