ghost use Rattle.std.specs.Prelude.{◌≡◌, ℕ, ◌<◌, ◌≤◌, ◌^◌, ◌↔◌, [], All, IfOk, IsTrue, OnErr, OnOk, filter, length, map, slice_index, slice_index_or};
ghost use Rattle.std.specs.List.{AllWithin};
ghost use Rattle.ve_vec.specs.Vectors.{numbered};
ghost use Rattle.ve_table.specs.Sound.{IsSound, NamesLiveIds};
ghost use Rattle.ve_table.specs.Changes.{without_dead};
ghost use Rattle.ve_table.specs.Numbers.{AreNumbered, CanNumber, CanNumberEntry, IsNumbered, new_numbers};
ghost use Rattle.ve_table.specs.Deaths.{is_live_entry};

use crate::Table;
use crate::bounds::set_bounds;
use crate::entry::Entry;
use crate::rows::keep_live_rows;
use ve_vec::Sparse;
use ve_word::Memory;

impl Table {
    /// Takes the dead ids away, and numbers the live ones from 0 in order.
    pub fn drop_dead(&mut self) -> Result<(), Memory>
        requires { NamesLiveIds self.old }
        ensures ok { OnOk result (self.new ≡ without_dead self.old) }
        ensures err { OnErr result (self.new ≡ self.old) }
        ensures sound { IsSound self.new }
    {
        let Some(least) = self.least_dead() else {
            return Ok(());
        };
        let letters = self.presentation.weights().len();
        let start = self.first_naming(least) as usize * letters;
        let numbers = new_numbers(&self.entries, least)?;
        keep_live_rows(&mut self.rows, &self.entries, letters, least as usize);
        drop_dead_entries(&mut self.entries, least as usize);
        self.forwards.clear();
        // What the forwards took beyond room for those to come is given back.
        self.forwards.shrink_to(self.live as usize);
        renumber_entries(self.entries.as_mut_slice(), &numbers, least as usize);
        renumber_rows(self.rows.as_mut_slice(), start, &numbers, least);
        renumber_vectors(self.images.as_mut_slice(), &numbers, least);
        set_bounds(
            self.bounds.as_mut_slice(),
            &self.entries,
            self.presentation.weights(),
            self.level,
        );
        Ok(())
    }
}

/// For each id how many live ones are below it. The first `least` ids are live.
fn new_numbers(entries: &Vec<Entry>, least: u32) -> Result<Vec<u32>, Memory>
    requires count { length entries.now.items < 2 ^ 32 }
    requires bound { least ≤ length entries.now.items }
    requires live { AllWithin (λ (e : Entry). e.death ≡ 0) entries.now.items 0 least }
    ensures { IfOk result (λ numbers. numbers.items ≡ new_numbers entries.now.items) }
{
    let mut numbers = Vec::with_capacity(*entries.allocator(), entries.len())?;
    for id in 0..least {
        numbers.push(id)?;
    }
    let mut number = least;
    for entry in &entries[least as usize..] {
        numbers.push(number)?;
        if entry.is_live() {
            number += 1;
        }
    }
    Ok(numbers)
}

/// Takes dead ids away. The first `least` ids are live.
fn drop_dead_entries(entries: &mut Vec<Entry>, least: usize)
    requires bound { least ≤ length entries.old.items }
    requires live { AllWithin (λ (e : Entry). e.death ≡ 0) entries.old.items 0 least }
    ensures { entries.new.items ≡ filter is_live_entry entries.old.items }
{
    let mut kept = least;
    for id in least..entries.len() {
        let entry = entries[id];
        if entry.is_live() {
            entries[kept] = entry;
            kept += 1;
        }
    }
    entries.truncate(kept);
}

/// Names parents by their new numbers. Those of the first `least` ids keep theirs.
fn renumber_entries(entries: &mut [Entry], numbers: &[u32], least: usize)
    requires parents { All (CanNumberEntry numbers.now) entries.old }
    requires least { (b : ℕ) (d : Entry) → b < least → IsNumbered numbers.now (slice_index_or entries.old b d) (slice_index_or entries.old b d) }
    ensures { AreNumbered numbers.now entries.old entries.new }
{
    for id in least..entries.len() {
        entries[id].renumber(numbers);
    }
}

/// Names the ids of rows by their new numbers, where those before `start` have ids below `least` alone.
fn renumber_rows(rows: &mut [Sparse], start: usize, numbers: &[u32], least: u32)
    requires rows { All (CanNumber numbers.now) rows.old }
    requires start { (k : ℕ) → k < start → All (λ t. t.0 < least) (slice_index_or rows.old k []) }
    requires least { (b : ℕ) → b < least → slice_index numbers.now b ≡ b }
    ensures { rows.new ≡ map (numbered numbers.now) rows.old }
{
    let start = start.min(rows.len());
    renumber_vectors(&mut rows[start..], numbers, least);
}

/// Names the ids of vectors by their new numbers. Those below `least` keep theirs.
fn renumber_vectors(vectors: &mut [Sparse], numbers: &[u32], least: u32)
    requires vectors { All (CanNumber numbers.now) vectors.old }
    requires least { (b : ℕ) → b < least → slice_index numbers.now b ≡ b }
    ensures { vectors.new ≡ map (numbered numbers.now) vectors.old }
{
    for vector in vectors {
        if !is_below(vector, least) {
            vector.renumber(numbers);
        }
    }
}

/// Whether all ids of a vector are below the given one. The first term has the greatest id.
fn is_below(vector: &Sparse, id: u32) -> bool
    ensures { IsTrue result ↔ All (λ t. t.0 < id) vector.now }
{
    match vector.leading() {
        Some(term) => term.id < id,
        None => true,
    }
}
