//! What relations vanish to along the rows of a table.

ghost use Rattle.std.specs.Prelude.{◌<◌, ◌≤◌, IfOk, length, nat_eq};
ghost use Rattle.ve_theory.specs.Combinations.{IsReducedOf, unit};
ghost use Rattle.ve_theory.specs.Presentations.{due, element_reach, relator, relators, submodule_relation};
ghost use Rattle.ve_theory.specs.Derivations.{DerivedWithin};
ghost use Rattle.ve_theory.specs.Answers.{IsRow};
ghost use Rattle.ve_vec.specs.Tracing.{vector_of, vector_times_element};
ghost use Rattle.ve_table.specs.Tables.{IsId, element_of, presented, row_at, word_at};

use std::alloc::Global;
use ve_table::Table;
use ve_theory::derivations::levels_are_closed;
use ve_theory::elements::sums_add_coefficients;
use ve_trace::laws::{products_are_found, relations_are_own};
use ve_trace::{trace_relator, trace_sub};
use ve_vec::Sparse;
use ve_word::Memory;

/// The vector of an id times a relator.
pub(crate) fn traced_relator(
    alloc: Global,
    table: &Table,
    id: u32,
    number: u32,
) -> Result<Sparse, Memory>
    requires id { IsId table.now id }
    requires number { number < length (relators (presented table.now)) }
    requires due { due (presented table.now) (word_at table.now id) (relator (presented table.now) number) ≤ table.now.level }
    ensures traced { IfOk result (λ v. IsReducedOf ◌<◌ nat_eq (presented table.now).prime v
        (vector_times_element (row_at table.now) (unit id) (relator (presented table.now) number))) }
    ensures row { IfOk result (IsRow (presented table.now).prime (length table.now.words)) }
    ensures vanishes { IfOk result (λ v. DerivedWithin (presented table.now) table.now.level (element_of table.now v)) }
{
    products_are_found();
    relations_are_own();
    levels_are_closed();
    sums_add_coefficients();
    let presentation = table.presentation();
    let field = presentation.field();
    field.has_prime();
    let relator = presentation.relator(number);
    let vector = trace_relator(alloc, table, field, id, relator)?;
    Ok(vector)
}

/// The vector of a submodule relation.
pub(crate) fn traced_submodule_relation(
    alloc: Global,
    table: &Table,
    number: u32,
) -> Result<Sparse, Memory>
    requires number { number < length (presented table.now).submodule }
    requires due { element_reach (presented table.now) (submodule_relation (presented table.now) number) ≤ table.now.level }
    ensures traced { IfOk result (λ v. IsReducedOf ◌<◌ nat_eq (presented table.now).prime v
        (vector_of (row_at table.now) table.now.images (submodule_relation (presented table.now) number))) }
    ensures row { IfOk result (IsRow (presented table.now).prime (length table.now.words)) }
    ensures vanishes { IfOk result (λ v. DerivedWithin (presented table.now) table.now.level (element_of table.now v)) }
{
    products_are_found();
    relations_are_own();
    levels_are_closed();
    sums_add_coefficients();
    let presentation = table.presentation();
    let field = presentation.field();
    field.has_prime();
    let relation = presentation.sub(number);
    let images = table.images();
    let vector = trace_sub(alloc, table, field, images, relation)?;
    Ok(vector)
}
