//! The words that a new level brings, in their order.

ghost use Rattle.std.specs.Prelude.{◌≡◌, ◌-◌, ◌<◌, ◌≤◌, ◌^◌, ◌++◌, IfOk, OnOk, length};
ghost use Rattle.std.specs.List.{AllWithin};
ghost use Rattle.ve_table.specs.Births.{AreBirths, IsWeightedBook, all_births, births_of, letters_weighing};
ghost use Rattle.ve_table.specs.Steps.{HasRisingReaches};

mod merge;
mod order;

use crate::entry::Entry;
use merge::merged;
use std::alloc::Global;
use ve_word::Memory;

/// A live id times a letter.
#[derive(Clone, Copy, Debug, PartialEq, Eq)]
pub(crate) struct Birth {
    pub(crate) parent: u32,
    pub(crate) letter: u8,
}

/// All products of the given reach, in the order of words. The ids are in this order too.
pub(crate) fn births(
    alloc: Global,
    entries: &[Entry],
    weights: &[u8],
    reach: u32,
) -> Result<Vec<Birth>, Memory>
    requires book { IsWeightedBook weights.now entries.now }
    requires count { length entries.now < 2 ^ 32 }
    requires letters { length weights.now ≤ 32 }
    ensures { IfOk result (λ births. AreBirths weights.now entries.now reach 17 births.items) }
{
    let mut births = Vec::new(alloc);
    for weight in 1..17 {
        if u32::from(weight) <= reach {
            // The parents of one letter's weight are of one reach, so their products are in order already.
            let parents = of_reach(entries, u64::from(reach) - u64::from(weight));
            let letters = letters_of(alloc, weights, weight)?;
            let products = products(alloc, parents, &letters)?;
            births = merged(alloc, entries, births, products)?;
        }
    }
    Ok(births)
}

/// The first id of the reach or above.
pub(crate) fn first_of_reach(entries: &[Entry], reach: u64) -> usize
    requires { HasRisingReaches entries.now }
    ensures bound { result ≤ length entries.now }
    ensures below { AllWithin (λ (e : Entry). e.reach < reach) entries.now 0 result }
    ensures rest { AllWithin (λ (e : Entry). reach ≤ e.reach) entries.now result (length entries.now) }
{
    entries.partition_point(|entry| u64::from(entry.reach) < reach)
}

/// The ids of the reach, from the first to the one after the last.
fn of_reach(entries: &[Entry], reach: u64) -> (usize, usize)
    requires rising { HasRisingReaches entries.now }
    requires reach { reach < 2 ^ 32 }
    ensures bound { result.1 ≤ length entries.now }
    ensures below { AllWithin (λ (e : Entry). e.reach < reach) entries.now 0 result.0 }
    ensures here { AllWithin (λ (e : Entry). e.reach ≡ reach) entries.now result.0 result.1 }
    ensures above { AllWithin (λ (e : Entry). reach < e.reach) entries.now result.1 (length entries.now) }
{
    (
        first_of_reach(entries, reach),
        first_of_reach(entries, reach + 1),
    )
}

/// The letters of a weight.
fn letters_of(alloc: Global, weights: &[u8], weight: u8) -> Result<Vec<u8>, Memory>
    requires { length weights.now ≤ 32 }
    ensures { IfOk result (λ letters. letters.items ≡ letters_weighing weights.now weight) }
{
    let mut letters = Vec::new(alloc);
    for (letter, letter_weight) in weights.iter().enumerate() {
        if *letter_weight == weight {
            letters.push(letter as u8)?;
        }
    }
    Ok(letters)
}

/// The products of a range of ids and letters, by id and then letter.
fn products(alloc: Global, parents: (usize, usize), letters: &[u8]) -> Result<Vec<Birth>, Memory>
    requires { parents.1 < 2 ^ 32 }
    ensures { IfOk result (λ births. births.items ≡ all_births parents.0 (parents.1 - parents.0) letters.now) }
{
    let mut births = Vec::new(alloc);
    for parent in parents.0..parents.1 {
        push_products(&mut births, parent as u32, letters)?;
    }
    Ok(births)
}

fn push_products(births: &mut Vec<Birth>, parent: u32, letters: &[u8]) -> Result<(), Memory>
    ensures { OnOk result (births.new.items ≡ births.old.items ++ births_of parent letters.now) }
{
    for letter in letters {
        let letter = *letter;
        births.push(Birth { parent, letter })?;
    }
    Ok(())
}
