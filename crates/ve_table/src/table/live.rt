//! Which ids are live, and what stands for the dead ones.

ghost use Rattle.std.specs.Prelude.{◌≡◌, ℕ, ◌<◌, ◌↔◌, All, IfNone, IfSome, IsTrue, None, Some, length, position, slice_get};
ghost use Rattle.std.specs.Option.{option_copied};
ghost use Rattle.ve_table.specs.Tables.{IsDead, IsId, IsLive, live_words};
ghost use Rattle.ve_table.specs.Sound.{HasLiveIds};
ghost use Rattle.ve_table.specs.Deaths.{is_dead_entry};

use crate::Table;
use crate::entry::Entry;
use ve_vec::Sparse;

impl Table {
    /// Whether an id is live.
    pub fn is_live(&self, id: u32) -> bool
        requires { IsId self.now id }
        ensures { IsTrue result ↔ IsLive self.now id }
    {
        self.entries[id as usize].is_live()
    }

    /// Whether each id of a vector is live.
    pub fn has_live_ids(&self, vector: &Sparse) -> bool
        requires { All (λ t. t.0 < length self.now.words) vector.now }
        ensures { IsTrue result ↔ HasLiveIds self.now vector.now }
    {
        vector.terms().iter().all(|term| self.is_live(term.id))
    }

    /// The vector that stands for a dead id, and `None` where the id is live.
    pub fn forward(&self, id: u32) -> Option<&Sparse>
        requires { IsId self.now id }
        ensures { slice_get self.now.forwards id ≡ Some (option_copied result) }
    {
        self.entries[id as usize].forward(&self.forwards)
    }

    /// How many ids are live.
    pub fn live_count(&self) -> u32
        ensures count { result ≡ length (live_words self.now) }
        ensures all { result ≡ length self.now.words ↔ All (λ forward. forward ≡ None) self.now.forwards }
    {
        self.live
    }

    /// The least dead id, and `None` where all are live.
    pub fn least_dead(&self) -> Option<u32>
        ensures none { IfNone result (All (λ forward. forward ≡ None) self.now.forwards) }
        ensures dead { IfSome result (IsDead self.now) }
        ensures least { IfSome result (λ id. (b : ℕ) → b < id → IsLive self.now b) }
    {
        if self.live == self.id_count() {
            return None;
        }
        let least = first_dead(&self.entries)?;
        Some(least as u32)
    }
}

fn first_dead(entries: &[Entry]) -> Option<usize>
    ensures { result ≡ position is_dead_entry entries.now }
{
    entries.iter().position(|entry| !entry.is_live())
}
