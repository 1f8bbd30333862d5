//! Square matrices.

ghost use Rattle.std.specs.Prelude.{◌≡◌, ◌<◌, ◌^◌, ℕ, Some, IfOk, length, nat_eq, slice_get};
ghost use Rattle.std.specs.Option.{option_copied};
ghost use Rattle.ve_theory.specs.Combinations.{IsReducedOf};
ghost use Rattle.ve_theory.specs.Answers.{IsRow};
ghost use Rattle.ve_matrix.specs.Matrices.{HasColumnsBelow, HasResidues, IsProduct, IsSquare, identity_matrix, row_times_matrix};

mod one_letter;

use one_letter::OneLetter;
use std::alloc::Global;
use std::marker::Model;
use ve_field::Field;
use ve_trace::trace_word;
use ve_vec::Sparse;
use ve_word::Memory;

/// A square matrix, as the list of its rows: for each place of a basis a vector over the places. A row vector is multiplied
/// from the left.
#[derive(Drop)]
pub struct Matrix {
    rows: Vec<Sparse>,
}

impl Model for Matrix {
    ghost use Rattle.std.specs.Prelude.{List};
    ghost use Rattle.ve_theory.specs.Answers.{Row};
    ghost use Rattle.ve_matrix.specs.Matrices.{IsSquare};

    ghost Value = { List Row };

    ghost view = { λ matrix. matrix.rows.items };

    ghost invariant = { λ matrix. IsSquare matrix.rows.items };
}

impl Matrix {
    /// The matrix with these rows, whose columns are below the number of rows.
    pub fn of_rows(rows: Vec<Sparse>) -> Matrix
        requires count { length rows.items < 2 ^ 32 }
        requires columns { HasColumnsBelow (length rows.items) rows.items }
        ensures { result ≡ rows.items }
    {
        Matrix { rows }
    }

    /// The matrix that changes no vector.
    pub fn identity(alloc: Global, size: u32) -> Result<Matrix, Memory>
        ensures value { IfOk result (λ matrix. matrix ≡ identity_matrix size) }
        ensures residues { IfOk result (λ matrix. (p : ℕ) → 1 < p → HasResidues p matrix) }
    {
        let mut rows = Vec::with_capacity(alloc, size as usize)?;
        for place in 0..size {
            rows.push_reserved(Sparse::unit(alloc, place));
        }
        Ok(Matrix { rows })
    }

    /// The row of a place, counted from 0.
    pub fn row(&self, at: u32) -> &Sparse
        requires { at < length self.now }
        ensures { slice_get self.now at ≡ Some result.now }
    {
        &self.rows[at as usize]
    }

    // The row of a place, where there is such a place.
    pub(crate) fn get(&self, at: u32) -> Option<&Sparse>
        ensures { option_copied result ≡ slice_get self.now at }
    {
        self.rows.get(at as usize)
    }

    /// How many rows there are, and as many columns.
    pub fn size(&self) -> u32
        ensures { result ≡ length self.now }
    {
        self.rows.len() as u32
    }

    /// Each matrix is square.
    pub fn is_square(&self)
        ensures { IsSquare self.now }
    {
        let _rows = &self.rows;
    }

    /// A row vector times the matrix.
    pub fn apply(&self, field: &Field, row: &Sparse) -> Result<Sparse, Memory>
        requires residues { HasResidues field.now self.now }
        requires row { IsRow field.now (length self.now) row.now }
        ensures product { IfOk result (λ v. IsReducedOf ◌<◌ nat_eq field.now v (row_times_matrix row.now self.now)) }
        ensures row { IfOk result (IsRow field.now (length self.now)) }
    {
        let alloc = *self.rows.allocator();
        let letter = OneLetter::new(self);
        trace_word(alloc, &letter, field, row, &[0])
    }

    /// The product of two matrices of one size: a row vector times it is the vector times this matrix, then times the other.
    pub fn mul(&self, field: &Field, other: &Matrix) -> Result<Matrix, Memory>
        requires residues { HasResidues field.now self.now }
        requires other_residues { HasResidues field.now other.now }
        requires size { length self.now ≡ length other.now }
        ensures product { IfOk result (IsProduct field.now self.now other.now) }
        ensures residues { IfOk result (HasResidues field.now) }
    {
        let mut rows = Vec::with_capacity(*self.rows.allocator(), self.rows.len())?;
        for row in &self.rows {
            rows.push_reserved(other.apply(field, row)?);
        }
        Ok(Matrix { rows })
    }
}
