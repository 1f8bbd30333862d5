ghost use Rattle.std.specs.Prelude.{◌≡◌, ◌<◌, ◌≤◌, ◌↔◌, IfOk, IsTrue, MatchOption};
ghost use Rattle.ve_make.specs.Symmetric.{IsMade, symmetric_presentation};

use crate::lines::{add_fixing, add_orders, add_swaps};
use std::alloc::Global;
use ve_field::Field;
use ve_pres::Presentation;
use ve_word::Memory;

/// The greatest number of points.
const MOST_POINTS: u64 = 25;

/// Whether there is a presentation for so many points and this node.
fn is_in_range(points: u64, node: u64) -> bool
    ensures { IsTrue result ↔ ((2 ≤ points) × (points ≤ 25) × (1 ≤ node) × (node < points)) }
{
    (2..=MOST_POINTS).contains(&points) && (1..points).contains(&node)
}

/// The symmetric group on 2 to 25 points, with its permutation module on the sets of `node` points, over the field of `prime` elements.
/// `None` where there are fewer or more points, where `node` isn't from 1 to below `points`, or where `prime` is no prime below 256.
pub fn make(
    alloc: Global,
    points: u64,
    node: u64,
    prime: u64,
) -> Result<Option<Presentation>, Memory>
    ensures { IfOk result (λ made. MatchOption made (¬ IsMade points node prime)
        (λ draft. IsMade points node prime × (draft.presentation ≡ symmetric_presentation points node prime))) }
{
    let Some(field) = Field::new(prime) else {
        return Ok(None);
    };
    if !is_in_range(points, node) {
        return Ok(None);
    }
    let swaps = points as u8 - 1;
    let mut presentation = Presentation::new(alloc, field);
    add_swaps(alloc, &mut presentation, swaps)?;
    add_orders(alloc, &mut presentation, &field, swaps)?;
    add_fixing(alloc, &mut presentation, &field, swaps, node as u8)?;
    Ok(Some(presentation))
}
