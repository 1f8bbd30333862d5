ghost use Rattle.std.specs.Prelude.{Contains, IfOk};
ghost use Rattle.ve_table.specs.Births.{CanCompare, IsBook, Merges};

use super::Birth;
use super::order::comes_before;
use crate::entry::Entry;
use std::alloc::Global;
use ve_word::Memory;

/// The births of two ordered lists in one. Where one of the two is empty nothing is compared or copied.
pub(super) fn merged(
    alloc: Global,
    entries: &[Entry],
    left: Vec<Birth>,
    right: Vec<Birth>,
) -> Result<Vec<Birth>, Memory>
    requires book { IsBook entries.now }
    requires words { (a b : Birth) → Contains left.items a → Contains right.items b → CanCompare entries.now a b }
    ensures { IfOk result (λ births. Merges entries.now left.items right.items births.items) }
{
    if left.is_empty() {
        return Ok(right);
    }
    if right.is_empty() {
        return Ok(left);
    }
    merge(alloc, entries, &left, &right)
}

fn merge(
    alloc: Global,
    entries: &[Entry],
    left: &[Birth],
    right: &[Birth],
) -> Result<Vec<Birth>, Memory>
    requires book { IsBook entries.now }
    requires words { (a b : Birth) → Contains left.now a → Contains right.now b → CanCompare entries.now a b }
    ensures { IfOk result (λ births. Merges entries.now left.now right.now births.items) }
{
    let mut births = Vec::new(alloc);
    let mut first = left;
    let mut second = right;
    loop {
        let Some((a, after_a)) = first.split_first() else {
            births.extend_from_slice(second)?;
            return Ok(births);
        };
        let Some((b, after_b)) = second.split_first() else {
            births.extend_from_slice(first)?;
            return Ok(births);
        };
        if comes_before(entries, *a, *b) {
            births.push(*a)?;
            first = after_a;
        } else {
            births.push(*b)?;
            second = after_b;
        }
    }
}
