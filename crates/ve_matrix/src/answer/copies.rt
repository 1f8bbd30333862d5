//! Copies of a table's parts.

ghost use Rattle.std.specs.Prelude.{◌≡◌, ◌<◌, ◌^◌, IfOk, IsSome, Some, length};
ghost use Rattle.ve_theory.specs.Presentations.{letter_count};
ghost use Rattle.ve_table.specs.Tables.{IsId, presented, row_at};
ghost use Rattle.ve_table.specs.Parts.{AreOrigins, AreRowsAt, HasAllRows};
ghost use Rattle.ve_matrix.specs.Copying.{AreMatricesOf, IsCopyOf};

use crate::{Answer, Matrix};
use std::alloc::Global;
use ve_table::{Origin, Table};
use ve_vec::{Rows, Sparse};
use ve_word::Memory;

/// The answer with the words and the rows of a table.
pub(crate) fn copy_table(alloc: Global, table: &Table) -> Result<Answer, Memory>
    requires { HasAllRows table.now }
    ensures { IfOk result (IsCopyOf table.now) }
{
    let presentation = table.presentation();
    Ok(Answer {
        field: *presentation.field(),
        names: presentation.names().copy()?,
        roots: presentation.roots(),
        closed: table.level(),
        basis: copy_origins(alloc, table)?,
        images: copy_vectors(alloc, table.images())?,
        matrices: copy_matrices(alloc, table)?,
    })
}

/// Where the words of all ids come from.
fn copy_origins(alloc: Global, table: &Table) -> Result<Vec<Origin>, Memory>
    ensures origins { IfOk result (λ origins. AreOrigins table.now origins.items) }
    ensures few { length table.now.words < 2 ^ 32 }
{
    let count = table.id_count();
    let mut origins = Vec::with_capacity(alloc, count as usize)?;
    for id in 0..count {
        origins.push_reserved(table.origin(id));
    }
    Ok(origins)
}

/// The same vectors once more.
fn copy_vectors(alloc: Global, vectors: &Vec<Sparse>) -> Result<Vec<Sparse>, Memory>
    ensures { IfOk result (λ copies. copies.items ≡ vectors.now.items) }
{
    let mut copies = Vec::with_capacity(alloc, vectors.len())?;
    for vector in vectors {
        copies.push_reserved(vector.copy()?);
    }
    Ok(copies)
}

/// For each letter the matrix of its rows.
fn copy_matrices(alloc: Global, table: &Table) -> Result<Vec<Matrix>, Memory>
    requires { HasAllRows table.now }
    ensures { IfOk result (λ matrices. AreMatricesOf table.now matrices.items) }
{
    let letters = table.presentation().names().count();
    let mut matrices = Vec::with_capacity(alloc, usize::from(letters))?;
    for letter in 0..letters {
        let rows = copy_rows(alloc, table, letter)?;
        matrices.push_reserved(Matrix::of_rows(rows));
    }
    Ok(matrices)
}

/// The rows of all ids at a letter.
fn copy_rows(alloc: Global, table: &Table, letter: u8) -> Result<Vec<Sparse>, Memory>
    requires rows { HasAllRows table.now }
    requires letter { letter < letter_count (presented table.now) }
    ensures rows { IfOk result (λ rows. AreRowsAt table.now letter rows.items) }
    ensures count { IfOk result (λ rows. length rows.items < 2 ^ 32) }
{
    let count = table.id_count();
    let mut rows = Vec::with_capacity(alloc, count as usize)?;
    for id in 0..count {
        rows.push_reserved(row_of(table, id, letter).copy()?);
    }
    Ok(rows)
}

/// The row of an id at a letter, where there is one.
fn row_of(table: &Table, id: u32, letter: u8) -> &Sparse
    requires { IsSome (row_at table.now id letter) }
    ensures { row_at table.now id letter ≡ Some result.now }
{
    table.row(id, letter).unwrap()
}
