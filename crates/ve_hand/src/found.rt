//! What is read for the ids of a vector.

ghost use Rattle.std.specs.Prelude.{◌≡◌, ◌↔◌, ℕ, List, All, Any, IfOk, IsTrue, None, map, slice_get, slice_index_or};
ghost use Rattle.std.specs.Option.{option_copied};
ghost use Rattle.ve_machine.specs.HandSteps.{IsRowFound, found_at, found_for};
ghost use Rattle.ve_machine.specs.Seats.{opened_state};
ghost use Rattle.ve_hand.specs.Views.{IsForwardFound, and_then, forward_in, found_of, row_in};

use crate::lookup::{copy_row, forward_of};
use std::alloc::Global;
use ve_table::Table;
use ve_vec::Sparse;
use ve_word::Memory;

/// What is read for an id.
#[derive(Drop)]
pub(crate) enum Found {
    /// Its row at the next letter.
    Row(Sparse),
    /// Its forward, since it is dead.
    Forward(Sparse),
    /// Nothing: it is live, and no letter is next.
    Nothing,
}

impl Found {
    fn forward(&self) -> Option<&Sparse>
        ensures { option_copied result ≡ forward_in (found_of self.now) }
    {
        match self {
            Found::Forward(forward) => Some(forward),
            Found::Row(_) | Found::Nothing => None,
        }
    }

    fn row(&self) -> Option<&Sparse>
        ensures { option_copied result ≡ row_in (found_of self.now) }
    {
        match self {
            Found::Row(row) => Some(row),
            Found::Forward(_) | Found::Nothing => None,
        }
    }

    fn is_forward(&self) -> bool
        ensures { IsTrue result ↔ IsForwardFound (found_of self.now) }
    {
        matches!(self, Found::Forward(_))
    }

    fn is_row(&self) -> bool
        ensures { IsTrue result ↔ IsRowFound (found_of self.now) }
    {
        matches!(self, Found::Row(_))
    }
}

/// Reads for each id of a vector, with the letter that is next.
pub(crate) fn look_up(
    alloc: Global,
    table: &Table,
    vector: &Sparse,
    letter: Option<u8>,
) -> Result<Vec<Found>, Memory>
    ensures { IfOk result (λ founds. (left : List ℕ) → slice_get left 0 ≡ letter
        → map found_of founds.items ≡ found_for (opened_state table.now 0) left vector.now) }
{
    let mut founds = Vec::with_capacity(alloc, vector.len())?;
    for at in 0..vector.len() {
        founds.push(look_up_id(alloc, table, vector.term(at).id, letter)?)?;
    }
    Ok(founds)
}

/// Reads for an id.
fn look_up_id(alloc: Global, table: &Table, id: u32, letter: Option<u8>) -> Result<Found, Memory>
    ensures { IfOk result (λ found. (left : List ℕ) → slice_get left 0 ≡ letter
        → found_of found ≡ found_at (opened_state table.now 0) left id (slice_index_or table.now.forwards id None)) }
{
    if let Some(forward) = forward_of(table, id) {
        return Ok(Found::Forward(forward.copy()?));
    }
    let Some(letter) = letter else {
        return Ok(Found::Nothing);
    };
    Ok(Found::Row(copy_row(alloc, table, id, letter)?))
}

/// Whether some id is dead.
pub(crate) fn has_forwards(founds: &[Found]) -> bool
    ensures { IsTrue result ↔ Any (λ found. IsForwardFound (found_of found)) founds.now }
{
    founds.iter().any(|found| found.is_forward())
}

/// Whether a row was read for each id.
pub(crate) fn has_rows_alone(founds: &[Found]) -> bool
    ensures { IsTrue result ↔ All (λ found. IsRowFound (found_of found)) founds.now }
{
    founds.iter().all(|found| found.is_row())
}

/// The forward that was read for an id, where one was.
pub(crate) fn forward_at(founds: &[Found], at: usize) -> Option<&Sparse>
    ensures { option_copied result ≡ and_then (slice_get (map found_of founds.now) at) forward_in }
{
    match founds.get(at) {
        Some(found) => found.forward(),
        None => None,
    }
}

/// The row that was read for an id, where one was.
pub(crate) fn row_at(founds: &[Found], at: usize) -> Option<&Sparse>
    ensures { option_copied result ≡ and_then (slice_get (map found_of founds.now) at) row_in }
{
    match founds.get(at) {
        Some(found) => found.row(),
        None => None,
    }
}
