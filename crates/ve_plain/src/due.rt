//! The relators that the ids of a reach meet.

ghost use Rattle.std.specs.Prelude.{◌≡◌, OnOk};
ghost use Rattle.ve_table.specs.Tables.{IsId, presented, reach_at};
ghost use Rattle.ve_plain.specs.Due.{due_numbers};

use ve_table::Table;
use ve_word::Memory;

/// Fills a list anew with the numbers of the relators that are due at an id, in order: one list for all ids of a reach.
pub(crate) fn put_due(table: &Table, id: u32, numbers: &mut Vec<u32>) -> Result<(), Memory>
    requires { IsId table.now id }
    ensures { OnOk result (numbers.new.items ≡ due_numbers (presented table.now) table.now.level (reach_at table.now id)) }
{
    numbers.clear();
    for number in 0..table.presentation().relator_count() {
        if table.due(id, number) == u64::from(table.level()) {
            numbers.push(number)?;
        }
    }
    Ok(())
}
