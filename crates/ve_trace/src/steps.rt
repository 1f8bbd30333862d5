//! A term times letters. As long as products have one term, no vector is made of them.

ghost use Rattle.std.specs.Prelude.{◌<◌, ◌≤◌, ◌++◌, OnOk, drop, length, nat_eq};
ghost use Rattle.ve_theory.specs.Combinations.{IsReduced, IsReducedOf, scaled};
ghost use Rattle.ve_vec.specs.Tracing.{AreReduced, CanTrace, vector_times_letters};
ghost use Rattle.ve_trace.specs.Steps.{LeadsTo, single};

use crate::multiples::add_moved;
use crate::sums::row_at;
use crate::times::times_letters;
use std::alloc::Global;
use ve_field::Field;
use ve_vec::{Rows, Sparse, Term};
use ve_word::Memory;

/// Adds a multiple of a term times letters.
pub(crate) fn add_product<R: Rows>(
    sum: &mut Sparse,
    alloc: Global,
    rows: &R,
    field: &Field,
    by: u8,
    start: Term,
    letters: &[u8],
) -> Result<(), Memory>
    requires sum { IsReduced ◌<◌ field.now sum.old }
    requires rows { AreReduced field.now (R.rows rows.now) }
    requires residue { by < field.now }
    requires start { IsReduced ◌<◌ field.now (single start) }
    requires found { CanTrace field.now (R.rows rows.now) (single start) letters.now }
    ensures { OnOk result (IsReducedOf ◌<◌ nat_eq field.now sum.new (sum.old ++ scaled by (vector_times_letters (R.rows rows.now) (single start) letters.now))) }
{
    let (term, done) = follow(rows, field, start, letters);
    if done == letters.len() {
        sum.add_scaled_term(field, by, term)?;
        return Ok(());
    }
    // One is an element of each field.
    field.has_prime();
    let mut first = Sparse::zero(alloc);
    first.add_scaled_term(field, 1, term)?;
    let product = times_letters(alloc, rows, field, &first, &letters[done..])?;
    add_moved(sum, field, by, product)?;
    Ok(())
}

/// Takes a term along letters as far as rows have one term: the last term, and how many letters were taken. A zero row takes all
/// letters, and the coefficient 0 stands for it.
fn follow<R: Rows>(rows: &R, field: &Field, start: Term, letters: &[u8]) -> (Term, usize)
    requires rows { AreReduced field.now (R.rows rows.now) }
    requires start { IsReduced ◌<◌ field.now (single start) }
    requires found { CanTrace field.now (R.rows rows.now) (single start) letters.now }
    ensures taken { result.1 ≤ length letters.now }
    ensures leads { LeadsTo field.now (R.rows rows.now) start letters.now result.0 (drop result.1 letters.now) }
{
    let mut term = start;
    for (at, letter) in letters.iter().enumerate() {
        match row_at(rows, term.id, *letter).terms() {
            [next] => {
                term = Term {
                    id: next.id,
                    coef: field.mul(term.coef, next.coef),
                };
            }
            [] => return (Term { id: 0, coef: 0 }, letters.len()),
            _ => return (term, at),
        }
    }
    (term, letters.len())
}
