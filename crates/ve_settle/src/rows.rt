ghost use Rattle.std.specs.Prelude.{◌≡◌, IsSome, Some};
ghost use Rattle.ve_table.specs.Tables.{row_at};

use ve_table::Table;
use ve_vec::{Rows, Sparse};

/// The row of an id at a letter, where there is one.
pub(crate) fn row_of(table: &Table, id: u32, letter: u8) -> &Sparse
    requires { IsSome (row_at table.now id letter) }
    ensures { row_at table.now id letter ≡ Some result.now }
{
    table.row(id, letter).unwrap()
}
