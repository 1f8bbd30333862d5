//! How many ids have a row at a letter.

ghost use Rattle.std.specs.Prelude.{◌≡◌, ℕ, ◌+◌, ◌<◌, ◌≤◌, ◌^◌, ◌↔◌, All, IfOk, Some, length, slice_get};
ghost use Rattle.ve_table.specs.declared.entry.Entry.{Entry};
ghost use Rattle.ve_table.specs.Steps.{HasRisingReaches};
ghost use Rattle.ve_table.specs.Rows.{AreBounds};

use crate::birth::first_of_reach;
use crate::entry::Entry;
use std::alloc::Global;
use ve_word::Memory;

/// No id for any letter.
pub(crate) fn no_bounds(alloc: Global, letters: usize) -> Result<Vec<u32>, Memory>
    ensures count { IfOk result (λ bounds. length bounds.items ≡ letters) }
    ensures zero { IfOk result (λ bounds. All (λ bound. bound ≡ 0) bounds.items) }
{
    Ok(vec![in alloc; 0; letters]?)
}

/// Sets for each letter how many ids have a product with it within the level. Reaches rise with ids, so these are the first ones.
pub(crate) fn set_bounds(bounds: &mut [u32], entries: &[Entry], weights: &[u8], level: u32)
    requires rising { HasRisingReaches entries.now }
    requires count { length entries.now < 2 ^ 32 }
    requires letters { length bounds.old ≡ length weights.now }
    ensures { AreBounds weights.now level entries.now bounds.new }
{
    for (letter, weight) in weights.iter().enumerate() {
        bounds[letter] = ids_within(entries, *weight, level);
    }
}

/// How many ids have a product within the level with a letter of the weight.
fn ids_within(entries: &[Entry], weight: u8, level: u32) -> u32
    requires rising { HasRisingReaches entries.now }
    requires count { length entries.now < 2 ^ 32 }
    ensures within { result ≤ length entries.now }
    ensures due { (b : ℕ) (e : Entry) → slice_get entries.now b ≡ Some e → (b < result) ↔ (e.reach + weight ≤ level) }
{
    let above = (u64::from(level) + 1).saturating_sub(u64::from(weight));
    first_of_reach(entries, above) as u32
}
