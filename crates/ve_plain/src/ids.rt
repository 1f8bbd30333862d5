//! Where the ids of a reach begin.

ghost use Rattle.std.specs.Prelude.{◌<◌, ◌≤◌, ℕ, length};
ghost use Rattle.ve_theory.specs.Presentations.{due, relator};
ghost use Rattle.ve_table.specs.Tables.{presented, word_at};

use ve_table::Table;
use ve_theory::order::reaches_are_bounded;

/// An id below which no relator is due at the level.
pub(crate) fn first_due(table: &Table) -> u32
    ensures within { result ≤ length table.now.words }
    ensures below { (b number : ℕ) → b < result
        → due (presented table.now) (word_at table.now b) (relator (presented table.now) number) < table.now.level }
{
    reaches_are_bounded();
    table.is_sound();
    let greatest = table.presentation().d();
    let least = table.level().saturating_sub(greatest);
    table.first_of_reach(u64::from(least))
}
