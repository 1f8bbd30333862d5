//! A vector times letters.

ghost use Rattle.std.specs.Prelude.{◌<◌, ◌++◌, IfOk, OnOk, nat_eq};
ghost use Rattle.ve_theory.specs.Combinations.{IsReduced, IsReducedOf, scaled};
ghost use Rattle.ve_vec.specs.Tracing.{AreReduced, CanTrace, HasProducts, vector_times, vector_times_letters};

use crate::multiples::{add_moved, multiple};
use crate::sums::{row_at, sum_of_rows};
use std::alloc::Global;
use ve_field::Field;
use ve_vec::{Rows, Sparse};
use ve_word::Memory;

/// The vector times letters, from the first to the last.
pub(crate) fn times_letters<R: Rows>(
    alloc: Global,
    rows: &R,
    field: &Field,
    start: &Sparse,
    letters: &[u8],
) -> Result<Sparse, Memory>
    requires rows { AreReduced field.now (R.rows rows.now) }
    requires start { IsReduced ◌<◌ field.now start.now }
    requires found { CanTrace field.now (R.rows rows.now) start.now letters.now }
    ensures { IfOk result (λ v. IsReducedOf ◌<◌ nat_eq field.now v (vector_times_letters (R.rows rows.now) start.now letters.now)) }
{
    let Some((first, rest)) = letters.split_first() else {
        return start.copy();
    };
    let mut vector = times_letter(alloc, rows, field, start, *first)?;
    let mut room = Sparse::zero(alloc);
    for letter in rest {
        if vector.len() == 1 {
            vector = times_letter(alloc, rows, field, &vector, *letter)?;
            continue;
        }
        // Sums are made in the room of the vector before the last, in turns.
        let next = sum_of_rows(alloc, room, rows, field, &vector, *letter, 0, vector.len())?;
        room = vector;
        vector = next;
    }
    Ok(vector)
}

/// The vector times a letter: the sum of the rows that its ids have at the letter, each times its coefficient.
pub fn times_letter<R: Rows>(
    alloc: Global,
    rows: &R,
    field: &Field,
    vector: &Sparse,
    letter: u8,
) -> Result<Sparse, Memory>
    requires rows { AreReduced field.now (R.rows rows.now) }
    requires vector { IsReduced ◌<◌ field.now vector.now }
    requires found { HasProducts field.now (R.rows rows.now) vector.now letter }
    ensures { IfOk result (λ v. IsReducedOf ◌<◌ nat_eq field.now v (vector_times (R.rows rows.now) vector.now letter)) }
{
    // The common case takes no sum, and no memory where the row is short.
    if vector.len() == 1 {
        let term = vector.term(0);
        return multiple(field, term.coef, row_at(rows, term.id, letter));
    }
    let room = Sparse::zero(alloc);
    sum_of_rows(alloc, room, rows, field, vector, letter, 0, vector.len())
}

/// Adds a multiple of a vector times a letter.
pub fn add_times_letter<R: Rows>(
    sum: &mut Sparse,
    alloc: Global,
    rows: &R,
    field: &Field,
    by: u8,
    vector: &Sparse,
    letter: u8,
) -> Result<(), Memory>
    requires sum { IsReduced ◌<◌ field.now sum.old }
    requires rows { AreReduced field.now (R.rows rows.now) }
    requires residue { by < field.now }
    requires vector { IsReduced ◌<◌ field.now vector.now }
    requires found { HasProducts field.now (R.rows rows.now) vector.now letter }
    ensures { OnOk result (IsReducedOf ◌<◌ nat_eq field.now sum.new (sum.old ++ scaled by (vector_times (R.rows rows.now) vector.now letter))) }
{
    // The common case adds a multiple of a row, and makes no product first.
    if vector.len() == 1 {
        let term = vector.term(0);
        sum.add_scaled(
            field,
            field.mul(term.coef, by),
            row_at(rows, term.id, letter),
        )?;
        return Ok(());
    }
    let product = times_letter(alloc, rows, field, vector, letter)?;
    add_moved(sum, field, by, product)?;
    Ok(())
}
