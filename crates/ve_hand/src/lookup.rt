//! What a table has of an id, a product or a generator, and what stands there where it has nothing.

ghost use Rattle.std.specs.Prelude.{◌≡◌, [], IfOk, None, slice_index_or};
ghost use Rattle.std.specs.Option.{option_copied};
ghost use Rattle.ve_vec.specs.Tracing.{row_or_zero};
ghost use Rattle.ve_table.specs.Tables.{row_at};
ghost use Rattle.ve_machine.specs.Forwards.{stand_in};

use std::alloc::Global;
use ve_table::Table;
use ve_vec::{Rows, Sparse};
use ve_word::Memory;

/// The forward of an id, and `None` where it is live or there is none.
pub(crate) fn forward_of(table: &Table, id: u32) -> Option<&Sparse>
    ensures { option_copied result ≡ slice_index_or table.now.forwards id None }
{
    table.is_sound();
    if id < table.id_count() {
        table.forward(id)
    } else {
        None
    }
}

/// The vector that stands for an id: its forward, or the id itself.
pub(crate) fn copy_stand_in(alloc: Global, table: &Table, id: u32) -> Result<Sparse, Memory>
    ensures { IfOk result (λ v. v ≡ stand_in table.now.forwards id) }
{
    match forward_of(table, id) {
        Some(forward) => forward.copy(),
        None => Ok(Sparse::unit(alloc, id)),
    }
}

/// The row of an id at a letter.
pub(crate) fn copy_row(alloc: Global, table: &Table, id: u32, letter: u8) -> Result<Sparse, Memory>
    ensures { IfOk result (λ v. v ≡ row_or_zero (row_at table.now) letter id) }
{
    match table.row(id, letter) {
        Some(row) => row.copy(),
        None => Ok(Sparse::zero(alloc)),
    }
}

/// The vector of a generator.
pub(crate) fn copy_image(alloc: Global, table: &Table, root: u8) -> Result<Sparse, Memory>
    ensures { IfOk result (λ v. v ≡ slice_index_or table.now.images root []) }
{
    match table.images().get(usize::from(root)) {
        Some(image) => image.copy(),
        None => Ok(Sparse::zero(alloc)),
    }
}
