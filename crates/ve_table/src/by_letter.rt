//! Rows in one list, by id and then letter, put into a list for each letter.

ghost use Rattle.std.specs.Prelude.{◌≡◌, ◌+◌, ◌-◌, ◌*◌, ◌<◌, ◌≤◌, All, IfOk, OnOk, length, slice_index_or, take};
ghost use Rattle.std.specs.Prelude.{Vec as VecValue, []};
ghost use Rattle.std.specs.Global.{Global as GlobalValue};
ghost use Rattle.ve_theory.specs.Answers.{Row};
ghost use Rattle.ve_table.specs.ByLetter.{AreDealt};

use std::alloc::Global;
use ve_vec::Sparse;
use ve_word::Memory;

// Room is given back once this part of it is empty.
const PART: usize = 8;

/// For each letter the rows of all ids. Rows are moved, and the room that they had is given back on the way.
pub(crate) fn rows_by_letter(
    rows: Vec<Sparse>,
    letters: usize,
    ids: usize,
) -> Result<Vec<Vec<Sparse>>, Memory>
    requires places { length rows.items ≡ ids * letters }
    ensures { IfOk result (λ lists. AreDealt letters ids 0 rows.items lists.items) }
{
    let mut left = rows;
    let mut lists = empty_lists(*left.allocator(), letters, ids)?;
    // Only the room at the end of a list can be given back.
    left.reverse();
    'ids: for _id in 0..ids {
        'letters: for letter in 0..letters {
            let row = take_last(&mut left);
            lists[letter].push(row)?;
        }
        give_back(&mut left);
    }
    Ok(lists)
}

/// An empty list for each letter, with room for all ids.
fn empty_lists(alloc: Global, letters: usize, ids: usize) -> Result<Vec<Vec<Sparse>>, Memory>
    ensures count { IfOk result (λ lists. length lists.items ≡ letters) }
    ensures empty { IfOk result (λ lists. All (λ (list : VecValue Row GlobalValue). list.items ≡ []) lists.items) }
{
    let mut lists = Vec::with_capacity(alloc, letters)?;
    for _letter in 0..letters {
        lists.push_reserved(Vec::with_capacity(alloc, ids)?);
    }
    Ok(lists)
}

/// Takes the last row away.
fn take_last(rows: &mut Vec<Sparse>) -> Sparse
    requires { 0 < length rows.old.items }
    ensures row { result ≡ slice_index_or rows.old.items (length rows.old.items - 1) [] }
    ensures rest { rows.new.items ≡ take (length rows.old.items - 1) rows.old.items }
{
    rows.pop().unwrap()
}

/// Gives room back where a part of it is empty.
fn give_back(rows: &mut Vec<Sparse>)
    ensures { rows.new.items ≡ rows.old.items }
{
    let room = rows.capacity();
    if rows.len() < room - room / PART {
        rows.shrink_to_fit();
    }
}
