//! Vectors as they are written down.

ghost use Rattle.std.specs.Prelude.{◌<◌, IfOk};
ghost use Rattle.ve_theory.specs.Combinations.{IsReduced};

use std::alloc::Global;
use ve_field::Field;
use ve_vec::{Rows, Sparse, Term};
use ve_word::Memory;

/// Terms, each an id and a coefficient, by falling id.
pub(super) type Terms = &'static [(u32, u8)];

/// The sum of the terms.
pub(super) fn vector_of(alloc: Global, field: &Field, terms: Terms) -> Result<Sparse, Memory>
    ensures { IfOk result (λ v. IsReduced ◌<◌ field.now v) }
{
    field.has_prime();
    let mut sum = Sparse::zero(alloc);
    for (id, coef) in terms {
        let term = Term {
            id: *id,
            coef: field.reduce(u128::from(*coef)),
        };
        sum.add_scaled_term(field, 1, term)?;
    }
    Ok(sum)
}

/// Whether the vector has these terms and no others.
pub(super) fn is_vector(vector: &Sparse, terms: Terms) -> bool {
    vector.len() == terms.len()
        && (0..vector.len()).all(|at| {
            let (id, coef) = terms[at];
            vector.term(at) == (Term { id, coef }) && vector.coef_of(id) == coef
        })
}

/// Whether there is such a vector where there are terms, and none where there are none.
pub(super) fn is_vector_at(found: Option<&Sparse>, wanted: Option<Terms>) -> bool {
    match (found, wanted) {
        (Some(vector), Some(terms)) => is_vector(vector, terms),
        (None, None) => true,
        _ => false,
    }
}

/// Whether this is the row of an id at a letter.
pub(super) fn has_row(rows: &impl Rows, id: u32, letter: u8, row: Option<Terms>) -> bool {
    is_vector_at(rows.row(id, letter), row)
}
