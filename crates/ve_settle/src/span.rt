ghost use Rattle.std.specs.Prelude.{◌≡◌, ◌<◌, ◌≤◌, All, IfOk, length};
ghost use Rattle.ve_table.specs.Tables.{presented};
ghost use Rattle.ve_machine.specs.Forwards.{IsResolved};
ghost use Rattle.ve_settle.specs.Falling.{left_of};

use crate::falling::FallingSum;
use std::alloc::Global;
use ve_table::Table;
use ve_vec::Sparse;
use ve_word::Memory;

/// The resolved form of what is left of a sum, where all ids are below `bound`. Dead ids are replaced from the greatest down, and live
/// ones stay in their places.
pub(crate) fn resolve_over_span(
    alloc: Global,
    table: &Table,
    left: FallingSum,
    bound: u32,
) -> Result<Sparse, Memory>
    requires field { left.field ≡ (presented table.now).prime }
    requires below { All (λ t. t.0 < bound) (left_of left) }
    requires ids { bound ≤ length table.now.words }
    ensures resolved { IfOk result (IsResolved (presented table.now).prime table.now.forwards (left_of left)) }
    ensures below { IfOk result (All (λ t. t.0 < bound)) }
{
    table.is_sound();
    let field = *table.presentation().field();
    let mut sum = left.into_dense(alloc, bound)?;
    for id in (0..bound).rev() {
        if sum.is_empty_at(id) {
            continue;
        }
        // A forward has lower ids, so none comes back to an id that is passed.
        if let Some(forward) = table.forward(id) {
            let coef = sum.take(&field, id);
            sum.add_scaled(&field, coef, forward);
        }
    }
    let resolved = sum.into_sparse(&field)?;
    Ok(resolved)
}
