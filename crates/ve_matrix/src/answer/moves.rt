//! A table's parts, taken.

ghost use Rattle.std.specs.Prelude.{◌≡◌, ◌<◌, ◌^◌, All, IfOk, length, map, Vec as VecValue};
ghost use Rattle.std.specs.Global.{Global as GlobalValue};
ghost use Rattle.ve_theory.specs.Answers.{Row};
ghost use Rattle.ve_table.specs.Parts.{HasAllRows};
ghost use Rattle.ve_matrix.specs.Copying.{IsCopyOf};
ghost use Rattle.ve_matrix.specs.Matrices.{HasColumnsBelow};

use crate::{Answer, Matrix};
use std::alloc::Global;
use ve_table::{Parts, Table};
use ve_vec::Sparse;
use ve_word::Memory;

/// The answer with the words and the rows of a table, which is taken apart.
pub(crate) fn move_table(alloc: Global, table: Table) -> Result<Answer, Memory>
    requires { HasAllRows table }
    ensures { IfOk result (IsCopyOf table) }
{
    table.is_sound();
    let Parts {
        presentation,
        level,
        origins,
        images,
        rows,
    } = table.into_parts()?;
    Ok(Answer {
        field: *presentation.field(),
        names: presentation.names().copy()?,
        roots: presentation.roots(),
        closed: level,
        basis: origins,
        images,
        matrices: matrices_of(alloc, rows)?,
    })
}

/// For each letter the matrix of its rows.
fn matrices_of(alloc: Global, rows: Vec<Vec<Sparse>>) -> Result<Vec<Matrix>, Memory>
    requires count { All (λ (list : VecValue Row GlobalValue). length list.items < 2 ^ 32) rows.items }
    requires columns { All (λ (list : VecValue Row GlobalValue). HasColumnsBelow (length list.items) list.items) rows.items }
    ensures { IfOk result (λ matrices. matrices.items ≡ map (λ (list : VecValue Row GlobalValue). list.items) rows.items) }
{
    let mut matrices = Vec::with_capacity(alloc, rows.len())?;
    for list in rows {
        matrices.push(Matrix::of_rows(list))?;
    }
    Ok(matrices)
}
