//! Sums of the rows that the ids of a vector have at a letter.

ghost use Rattle.std.specs.Prelude.{◌≡◌, ◌≢◌, ◌<◌, ◌≤◌, ◌++◌, None, Some, IfOk, OnOk, length, nat_eq};
ghost use Rattle.ve_theory.specs.Combinations.{scaled, IsReduced, IsReducedOf};
ghost use Rattle.ve_vec.specs.Tracing.{AreReduced, vector_times};
ghost use Rattle.ve_trace.specs.Parts.{AreRowsBetween, HasRows, part};

use crate::spread::{Spread, spread_of_rows};
use std::alloc::Global;
use ve_field::Field;
use ve_vec::{DenseSum, Rows, Sparse};
use ve_word::Memory;

/// Up to how many rows are added one after another, whether they overlap or not.
const FEW: usize = 8;

/// Up to how many terms a row is short.
const SHORT: usize = 4;

/// The sum of the rows at a letter that the ids of some terms have, each times its coefficient. Many rows that overlap are added
/// up over the span of their ids where that is not much longer than they are. Else halves are added up first unless the terms are
/// few, since each addition costs the length of the sum. The room of a vector that is no longer wanted may serve for the sum.
pub(crate) fn sum_of_rows<R: Rows>(
    alloc: Global,
    room: Sparse,
    rows: &R,
    field: &Field,
    vector: &Sparse,
    letter: u8,
    from: usize,
    to: usize,
) -> Result<Sparse, Memory>
    requires rows { AreReduced field.now (R.rows rows.now) }
    requires vector { IsReduced ◌<◌ field.now vector.now }
    requires found { HasRows (R.rows rows.now) vector.now letter }
    requires order { from ≤ to }
    requires within { to ≤ length vector.now }
    ensures { IfOk result (λ v. IsReducedOf ◌<◌ nat_eq field.now v (vector_times (R.rows rows.now) (part from to vector.now) letter)) }
{
    if to - from <= FEW {
        return sum_in_order(room, rows, field, vector, letter, from, to);
    }
    let spread = spread_of_rows(rows, vector, letter, from, to);
    if spread.falls() {
        return sum_in_order(room, rows, field, vector, letter, from, to);
    }
    if spread.is_dense() {
        return sum_over_span(alloc, rows, field, vector, letter, from, to, &spread);
    }
    if spread.has_few_terms() {
        return sum_in_order(room, rows, field, vector, letter, from, to);
    }
    let middle = from + (to - from) / 2;
    let mut sum = sum_of_rows(alloc, room, rows, field, vector, letter, from, middle)?;
    let fresh = Sparse::zero(alloc);
    let rest = sum_of_rows(alloc, fresh, rows, field, vector, letter, middle, to)?;
    sum.add_scaled(field, 1, &rest)?;
    Ok(sum)
}

/// The same, where rows are added one after another, in falling order of the ids.
fn sum_in_order<R: Rows>(
    mut sum: Sparse,
    rows: &R,
    field: &Field,
    vector: &Sparse,
    letter: u8,
    from: usize,
    to: usize,
) -> Result<Sparse, Memory>
    requires rows { AreReduced field.now (R.rows rows.now) }
    requires vector { IsReduced ◌<◌ field.now vector.now }
    requires found { HasRows (R.rows rows.now) vector.now letter }
    requires order { from ≤ to }
    requires within { to ≤ length vector.now }
    ensures { IfOk result (λ v. IsReducedOf ◌<◌ nat_eq field.now v (vector_times (R.rows rows.now) (part from to vector.now) letter)) }
{
    sum.clear();
    for at in from..to {
        let term = vector.term(at);
        add_row(&mut sum, field, term.coef, row_at(rows, term.id, letter))?;
    }
    Ok(sum)
}

/// Adds `by` times a row. The terms of a short one find their places without a new list.
fn add_row(sum: &mut Sparse, field: &Field, by: u8, row: &Sparse) -> Result<(), Memory>
    requires fits { IsReduced ◌<◌ field.now sum.old }
    requires row_fits { IsReduced ◌<◌ field.now row.now }
    requires residue { by < field.now }
    ensures { OnOk result (IsReducedOf ◌<◌ nat_eq field.now sum.new (sum.old ++ scaled by row.now)) }
{
    if row.len() > SHORT {
        sum.add_scaled(field, by, row)?;
        return Ok(());
    }
    for term in row.terms() {
        sum.add_scaled_term(field, by, *term)?;
    }
    Ok(())
}

/// The same, where the rows are added up over the span of their ids.
fn sum_over_span<R: Rows>(
    alloc: Global,
    rows: &R,
    field: &Field,
    vector: &Sparse,
    letter: u8,
    from: usize,
    to: usize,
    spread: &Spread,
) -> Result<Sparse, Memory>
    requires found { HasRows (R.rows rows.now) vector.now letter }
    requires order { from ≤ to }
    requires within { to ≤ length vector.now }
    requires span { spread.now.low ≤ spread.now.high }
    requires between { AreRowsBetween (R.rows rows.now) vector.now letter from to spread.now.low spread.now.high }
    ensures { IfOk result (λ v. IsReducedOf ◌<◌ nat_eq field.now v (vector_times (R.rows rows.now) (part from to vector.now) letter)) }
{
    let mut sum = DenseSum::new(alloc, spread.low, spread.high)?;
    for at in from..to {
        let term = vector.term(at);
        sum.add_scaled(field, term.coef, row_at(rows, term.id, letter));
    }
    sum.into_sparse(field)
}

/// The row of an id at a letter, which has one.
pub(crate) fn row_at<R: Rows>(rows: &R, id: u32, letter: u8) -> &Sparse
    requires { R.rows rows.now id letter ≢ None }
    ensures { R.rows rows.now id letter ≡ Some result.now }
{
    match rows.row(id, letter) {
        Some(row) => row,
        None => unreachable!(),
    }
}
