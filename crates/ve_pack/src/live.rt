ghost use Rattle.std.specs.Prelude.{ℕ, ◌<◌, ◌↔◌, All, IsTrue, length};
ghost use Rattle.ve_table.specs.Tables.{IsLive};
ghost use Rattle.ve_table.specs.Sound.{HasLiveIds};

use ve_table::Table;
use ve_vec::Sparse;

/// Whether each id of the vector is live, where those below `dead` are.
pub(crate) fn has_live_ids(table: &Table, vector: &Sparse, dead: u32) -> bool
    requires ids { All (λ t. t.0 < length table.now.words) vector.now }
    requires below { (b : ℕ) → b < dead → IsLive table.now b }
    ensures { IsTrue result ↔ HasLiveIds table.now vector.now }
{
    let Some(term) = vector.leading() else {
        return true;
    };
    // No other id of the vector is greater.
    term.id < dead || table.has_live_ids(vector)
}
