ghost use Rattle.std.specs.Prelude.{◌≡◌, ℕ, ◌<◌, ◌≤◌, All, IfOk, length};
ghost use Rattle.ve_theory.specs.Combinations.{difference};
ghost use Rattle.ve_theory.specs.Answers.{IsRow};
ghost use Rattle.ve_theory.specs.Derivations.{DerivedWithin};
ghost use Rattle.ve_table.specs.Tables.{element_of, presented};
ghost use Rattle.ve_machine.specs.Forwards.{IsResolved};
ghost use Rattle.ve_settle.specs.Settling.{ForwardingsResolveToZero, ResolutionsAreUnique, ResolutionsKeepWords};

use crate::falling::FallingSum;
use crate::span::resolve_over_span;
use crate::terms::add_term;
use std::alloc::Global;
use ve_table::Table;
use ve_vec::Sparse;
use ve_word::Memory;

/// A vector without dead ids that is equal to this one, where each dead id is the vector that stands for it.
pub fn resolve(alloc: Global, table: &Table, vector: &Sparse) -> Result<Sparse, Memory>
    requires { IsRow (presented table.now).prime (length table.now.words) vector.now }
    ensures resolved { IfOk result (IsResolved (presented table.now).prime table.now.forwards vector.now) }
    ensures row { IfOk result (IsRow (presented table.now).prime (length table.now.words)) }
    ensures derived { IfOk result (λ v. DerivedWithin (presented table.now) table.now.level
        (difference (presented table.now).prime (element_of table.now vector.now) (element_of table.now v))) }
    // No id is above all those of the vector.
    ensures ids { IfOk result (λ v. (bound : ℕ) → All (λ t. t.0 ≤ bound) vector.now → All (λ t. t.0 ≤ bound) v) }
{
    let copy = vector.copy()?;
    let resolved = into_resolved(alloc, table, copy)?;
    Ok(resolved)
}

/// The same for a vector that is given away: one whose ids are live is its own resolved form.
pub fn into_resolved(alloc: Global, table: &Table, vector: Sparse) -> Result<Sparse, Memory>
    requires { IsRow (presented table.now).prime (length table.now.words) vector }
    ensures resolved { IfOk result (IsResolved (presented table.now).prime table.now.forwards vector) }
    ensures row { IfOk result (IsRow (presented table.now).prime (length table.now.words)) }
    ensures derived { IfOk result (λ v. DerivedWithin (presented table.now) table.now.level
        (difference (presented table.now).prime (element_of table.now vector) (element_of table.now v))) }
    // No id is above all those of the vector.
    ensures ids { IfOk result (λ v. (bound : ℕ) → All (λ t. t.0 ≤ bound) vector → All (λ t. t.0 ≤ bound) v) }
{
    table.is_sound();
    if table.has_live_ids(&vector) {
        return Ok(vector);
    }
    let resolved = resolve_by_falling_ids(alloc, table, vector)?;
    Ok(resolved)
}

// A forward has lower ids than the id that it stands for. So once the terms of an id are added up, no later forward brings it in
// again, and each id is met once.
fn resolve_by_falling_ids(alloc: Global, table: &Table, vector: Sparse) -> Result<Sparse, Memory>
    requires { IsRow (presented table.now).prime (length table.now.words) vector }
    ensures resolved { IfOk result (IsResolved (presented table.now).prime table.now.forwards vector) }
    ensures ids { IfOk result (λ v. (bound : ℕ) → All (λ t. t.0 ≤ bound) vector → All (λ t. t.0 ≤ bound) v) }
{
    let field = *table.presentation().field();
    let mut left = FallingSum::new(alloc, field, vector);
    let mut resolved = Sparse::zero(alloc);
    let mut pushed: usize = 0;
    while let Some(term) = left.pop() {
        let Some(forward) = table.forward(term.id) else {
            add_term(&mut resolved, &field, term)?;
            continue;
        };
        left.push_scaled(term.coef, forward)?;
        pushed = pushed.saturating_add(forward.len());
        // More terms came in than there are ids below, so from here on a number for each of these costs less.
        if pushed > term.id as usize {
            let rest = resolve_over_span(alloc, table, left, term.id)?;
            resolved.add_scaled(&field, 1, &rest)?;
            return Ok(resolved);
        }
    }
    Ok(resolved)
}

/// A vector is equal to at most one vector without dead ids.
pub fn resolutions_are_unique()
    ensures { ResolutionsAreUnique }
{}

/// A vector is a combination of ids, each less what stands for it, exactly where it resolves to zero.
pub fn forwardings_resolve_to_zero()
    ensures { ForwardingsResolveToZero }
{
    ve_machine::forwards::forwardings_are_a_space();
}

/// The resolved form of a row, or of an image, can stand in its place.
pub fn resolutions_keep_words()
    ensures { ResolutionsKeepWords }
{}
