//! Rows in one list, by id and then letter. Ids at the end of the table may have no places yet, and a place without a row is
//! zero.

ghost use Rattle.std.specs.Prelude.{◌≡◌, ◌≢◌, ℕ, ◌+◌, ◌*◌, ◌<◌, ◌≤◌, ◌^◌, [], All, OnOk, length, max, slice_index_or};
ghost use Rattle.std.specs.List.{AllWithin};
ghost use Rattle.ve_table.specs.declared.entry.Entry.{Entry};
ghost use Rattle.ve_table.specs.Rows.{AreLiveRows, AreMoved, with_births_from};

use crate::birth::Birth;
use crate::entry::Entry;
use std::alloc::Global;
use std::mem::replace;
use ve_vec::Sparse;
use ve_word::Memory;

/// Adds places of zero vectors until there are as many as asked for.
pub(crate) fn take_places(rows: &mut Vec<Sparse>, places: usize) -> Result<(), Memory>
    ensures same { (k : ℕ) → slice_index_or rows.new.items k [] ≡ slice_index_or rows.old.items k [] }
    ensures kept { length rows.old.items ≤ length rows.new.items }
    ensures within { length rows.new.items ≤ max (length rows.old.items) places }
    ensures ok { OnOk result (places ≤ length rows.new.items) }
{
    let more = places.saturating_sub(rows.len());
    let alloc = *rows.allocator();
    rows.reserve(more)?;
    for _place in 0..more {
        rows.push_reserved(Sparse::zero(alloc));
    }
    Ok(())
}

/// Makes the row of each product the unit of its id. The ids follow one another.
pub(crate) fn set_units(
    alloc: Global,
    rows: &mut [Sparse],
    births: &[Birth],
    letters: usize,
    first: u32,
)
    requires places { All (λ (b : Birth). b.parent * letters + b.letter < length rows.old) births.now }
    requires letters { letters ≤ 32 }
    requires ids { first + length births.now < 2 ^ 32 }
    ensures { rows.new ≡ with_births_from letters first rows.old births.now }
{
    let mut id = first;
    for birth in births {
        let place = birth.parent as usize * letters + usize::from(birth.letter);
        rows[place] = Sparse::unit(alloc, id);
        id += 1;
    }
}

/// Takes the rows of dead ids away, so that those of live ids follow one another. The first `least` ids are live.
pub(crate) fn keep_live_rows(
    rows: &mut Vec<Sparse>,
    entries: &[Entry],
    letters: usize,
    least: usize,
)
    requires count { length entries.now < 2 ^ 32 }
    requires letters { letters ≤ 32 }
    requires bound { least ≤ length entries.now }
    requires live { AllWithin (λ (e : Entry). e.death ≡ 0) entries.now 0 least }
    ensures { AreLiveRows letters entries.now rows.old.items rows.new.items }
{
    let alloc = *rows.allocator();
    let mut kept = least;
    for id in least..entries.len() {
        if entries[id].is_live() {
            if kept < id {
                move_rows(alloc, rows.as_mut_slice(), id, kept, letters);
            }
            kept += 1;
        }
    }
    rows.truncate(kept * letters);
}

/// Puts the rows of an id at the places of a lower one.
fn move_rows(alloc: Global, rows: &mut [Sparse], from: usize, to: usize, letters: usize)
    requires below { to < from }
    requires count { from < 2 ^ 32 }
    requires letters { letters ≤ 32 }
    ensures { AreMoved letters from to rows.old rows.new }
{
    for letter in 0..letters {
        move_row(alloc, rows, from * letters + letter, to * letters + letter);
    }
}

// A place that the list lacks has the zero vector.
fn move_row(alloc: Global, rows: &mut [Sparse], from: usize, to: usize)
    requires { to < from }
    ensures count { length rows.new ≡ length rows.old }
    ensures moved { slice_index_or rows.new to [] ≡ slice_index_or rows.old from [] }
    ensures rest { (k : ℕ) → k ≢ from → k ≢ to → slice_index_or rows.new k [] ≡ slice_index_or rows.old k [] }
{
    let row = if from < rows.len() {
        replace(&mut rows[from], Sparse::zero(alloc))
    } else {
        Sparse::zero(alloc)
    };
    if to < rows.len() {
        rows[to] = row;
    }
}
