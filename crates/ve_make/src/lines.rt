//! The lines of the presentation, in their order.

ghost use Rattle.std.specs.Prelude.{◌≡◌, ◌+◌, ◌*◌, ◌<◌, ◌≤◌, [], ◌++◌, IsFalse, OnOk};
ghost use Rattle.ve_theory.specs.Presentations.{letter_count};
ghost use Rattle.ve_pres.specs.Drafts.{with_relator, with_submodule_relation};
ghost use Rattle.ve_make.specs.Symmetric.{fixing_relation, fixing_relations, order_relation, order_relations, relations_of_swap};
ghost use Rattle.ve_make.specs.Parts.{HasRoom, swaps_draft};

use crate::elements::{fixing_relation, order_relation};
use std::alloc::Global;
use ve_field::Field;
use ve_formats::decimals_are_numbers;
use ve_pres::{PresFault, Presentation};
use ve_word::{Memory, NameFault};

/// Adds the swaps, each its own inverse.
pub(crate) fn add_swaps(
    alloc: Global,
    presentation: &mut Presentation,
    swaps: u8,
) -> Result<(), Memory>
    requires few { swaps ≤ 24 }
    requires bare { presentation.old ≡ swaps_draft presentation.old.presentation.prime 0 [] [] }
    ensures { OnOk result (presentation.new ≡ swaps_draft presentation.old.presentation.prime swaps [] []) }
{
    for swap in 0..swaps {
        add_swap(alloc, presentation, swap)?;
    }
    Ok(())
}

/// Adds a swap behind those before it.
fn add_swap(alloc: Global, presentation: &mut Presentation, swap: u8) -> Result<(), Memory>
    requires few { swap < 24 }
    requires before { presentation.old ≡ swaps_draft presentation.old.presentation.prime swap [] [] }
    ensures { OnOk result (presentation.new ≡ swaps_draft presentation.old.presentation.prime (swap + 1) [] []) }
{
    decimals_are_numbers();
    let number = swap + 1;
    let name = format!(in alloc; "s{number}")?;
    match presentation.add_involution(&name) {
        Ok(_) => Ok(()),
        Err(fault) => match fault {
            NameFault::Memory => Err(Memory),
            _ => unreachable!(),
        },
    }
}

/// Adds the orders of the products of two swaps.
pub(crate) fn add_orders(
    alloc: Global,
    presentation: &mut Presentation,
    field: &Field,
    swaps: u8,
) -> Result<(), Memory>
    requires few { swaps ≤ 24 }
    requires stands { presentation.old ≡ swaps_draft field.now swaps [] [] }
    ensures added { OnOk result (presentation.new ≡ swaps_draft field.now swaps (order_relations field.now swaps) []) }
    ensures room { OnOk result (HasRoom (24 * swaps) presentation.new) }
{
    for first in 0..swaps {
        add_orders_with(alloc, presentation, field, first, swaps)?;
    }
    Ok(())
}

/// Adds the orders of the products of a swap with the later ones.
fn add_orders_with(
    alloc: Global,
    presentation: &mut Presentation,
    field: &Field,
    first: u8,
    swaps: u8,
) -> Result<(), Memory>
    requires few { swaps ≤ 24 }
    requires first { first < swaps }
    requires stands { presentation.old ≡ swaps_draft field.now swaps presentation.old.presentation.relations [] }
    requires room { HasRoom (24 * first) presentation.old }
    ensures added { OnOk result (presentation.new ≡ swaps_draft field.now swaps (presentation.old.presentation.relations ++ relations_of_swap field.now swaps first) []) }
    ensures room { OnOk result (HasRoom (24 * (first + 1)) presentation.new) }
{
    for second in first + 1..swaps {
        add_order(alloc, presentation, field, first, second)?;
    }
    Ok(())
}

/// Adds the order of the product of two swaps.
fn add_order(
    alloc: Global,
    presentation: &mut Presentation,
    field: &Field,
    first: u8,
    second: u8,
) -> Result<(), Memory>
    requires order { first < second }
    requires last { second < letter_count presentation.old.presentation }
    requires field { field.now ≡ presentation.old.presentation.prime }
    requires plain { IsFalse presentation.old.presentation.is_balanced }
    requires room { HasRoom 600 presentation.old }
    ensures { OnOk result (presentation.new ≡ with_relator presentation.old (order_relation field.now first second)) }
{
    match presentation.add_relation(order_relation(alloc, field, first, second)?) {
        Ok(()) => Ok(()),
        Err(PresFault::Memory) => Err(Memory),
        Err(PresFault::Limit(_)) => unreachable!(),
    }
}

/// Adds that each swap but the one at `node` fixes the generator.
pub(crate) fn add_fixing(
    alloc: Global,
    presentation: &mut Presentation,
    field: &Field,
    swaps: u8,
    node: u8,
) -> Result<(), Memory>
    requires few { swaps ≤ 24 }
    requires stands { presentation.old ≡ swaps_draft field.now swaps presentation.old.presentation.relations [] }
    requires room { HasRoom (24 * swaps) presentation.old }
    ensures { OnOk result (presentation.new ≡ swaps_draft field.now swaps presentation.old.presentation.relations (fixing_relations field.now node swaps)) }
{
    for swap in 0..swaps {
        if swap + 1 != node {
            add_fix(alloc, presentation, field, swap)?;
        }
    }
    Ok(())
}

/// Adds that a swap fixes the generator.
fn add_fix(
    alloc: Global,
    presentation: &mut Presentation,
    field: &Field,
    swap: u8,
) -> Result<(), Memory>
    requires letter { swap < letter_count presentation.old.presentation }
    requires generator { 0 < presentation.old.presentation.generators }
    requires field { field.now ≡ presentation.old.presentation.prime }
    requires room { HasRoom 600 presentation.old }
    ensures { OnOk result (presentation.new ≡ with_submodule_relation presentation.old (fixing_relation field.now swap)) }
{
    match presentation.add_sub(fixing_relation(alloc, field, swap)?) {
        Ok(()) => Ok(()),
        Err(PresFault::Memory) => Err(Memory),
        Err(PresFault::Limit(_)) => unreachable!(),
    }
}
