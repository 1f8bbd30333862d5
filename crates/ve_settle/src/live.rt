ghost use Rattle.std.specs.Prelude.{ℕ, ◌≤◌, IfNone, IfSome};
ghost use Rattle.ve_table.specs.Tables.{IsLive};

use ve_table::Table;

/// The last id that is live, or `None` where all are dead.
pub(crate) fn greatest_live_id(table: &Table) -> Option<u32>
    ensures live { IfSome result (λ id. IsLive table.now id × ((b : ℕ) → IsLive table.now b → b ≤ id)) }
    ensures none { IfNone result ((b : ℕ) → ¬ IsLive table.now b) }
{
    table.is_sound();
    for id in (0..table.id_count()).rev() {
        if table.is_live(id) {
            return Some(id);
        }
    }
    None
}
