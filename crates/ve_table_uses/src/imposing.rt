//! Relations that are imposed on a table.

ghost use Rattle.std.specs.Prelude.{◌≡◌, ◌<◌, ◌≤◌, IfOk, OnErr, length, nat_eq};
ghost use Rattle.ve_theory.specs.Combinations.{IsReducedOf, unit};
ghost use Rattle.ve_theory.specs.Presentations.{due, element_reach, relator, relators, submodule_relation};
ghost use Rattle.ve_theory.specs.Derivations.{DerivedWithin};
ghost use Rattle.ve_theory.specs.Answers.{IsRow, Row};
ghost use Rattle.ve_vec.specs.Tracing.{vector_of, vector_times_element};
ghost use Rattle.ve_table.specs.Tables.{IsId, element_of, presented, row_at, word_at};
ghost use Rattle.ve_table.specs.Sound.{IsSound};
ghost use Rattle.ve_table_uses.specs.Imposing.{Imposes};

use std::alloc::Global;
use ve_settle::{delete, resolve};
use ve_table::Table;
use ve_theory::derivations::levels_are_closed;
use ve_theory::elements::sums_add_coefficients;
use ve_trace::laws::{products_are_found, relations_are_own};
use ve_trace::{trace_relator, trace_sub};
use ve_vec::Sparse;
use ve_word::Memory;

/// Traces a relator at an id where the two are due, and deletes the vector, which vanishes. The id that died, if one did.
pub fn impose_relator(
    alloc: Global,
    table: &mut Table,
    id: u32,
    number: u32,
) -> Result<Option<u32>, Memory>
    requires id { IsId table.old id }
    requires number { number < length (relators (presented table.old)) }
    requires due { due (presented table.old) (word_at table.old id) (relator (presented table.old) number) ≤ table.old.level }
    ensures imposed { IfOk result (λ died. (v : Row)
        × IsReducedOf ◌<◌ nat_eq (presented table.old).prime v (vector_times_element (row_at table.old) (unit id) (relator (presented table.old) number))
        × Imposes table.old v died table.new) }
    ensures err { OnErr result (table.new ≡ table.old) }
    ensures sound { IsSound table.new }
{
    table.is_sound();
    let vector = traced_relator(alloc, table, id, number)?;
    let died = impose(alloc, table, &vector)?;
    Ok(died)
}

/// Traces a submodule relation that is due, and deletes the vector, which vanishes. The id that died, if one did.
pub fn impose_submodule_relation(
    alloc: Global,
    table: &mut Table,
    number: u32,
) -> Result<Option<u32>, Memory>
    requires number { number < length (presented table.old).submodule }
    requires due { element_reach (presented table.old) (submodule_relation (presented table.old) number) ≤ table.old.level }
    ensures imposed { IfOk result (λ died. (v : Row)
        × IsReducedOf ◌<◌ nat_eq (presented table.old).prime v (vector_of (row_at table.old) table.old.images (submodule_relation (presented table.old) number))
        × Imposes table.old v died table.new) }
    ensures err { OnErr result (table.new ≡ table.old) }
    ensures sound { IsSound table.new }
{
    table.is_sound();
    let relation = traced_submodule_relation(alloc, table, number)?;
    let died = impose(alloc, table, &relation)?;
    Ok(died)
}

/// The vector of an id times a relator.
pub(crate) fn traced_relator(
    alloc: Global,
    table: &Table,
    id: u32,
    number: u32,
) -> Result<Sparse, Memory>
    requires id { IsId table.now id }
    requires number { number < length (relators (presented table.now)) }
    requires due { due (presented table.now) (word_at table.now id) (relator (presented table.now) number) ≤ table.now.level }
    ensures traced { IfOk result (λ v. IsReducedOf ◌<◌ nat_eq (presented table.now).prime v
        (vector_times_element (row_at table.now) (unit id) (relator (presented table.now) number))) }
    ensures row { IfOk result (IsRow (presented table.now).prime (length table.now.words)) }
    ensures vanishes { IfOk result (λ v. DerivedWithin (presented table.now) table.now.level (element_of table.now v)) }
{
    products_are_found();
    relations_are_own();
    levels_are_closed();
    sums_add_coefficients();
    let presentation = table.presentation();
    let field = presentation.field();
    field.has_prime();
    let relator = presentation.relator(number);
    let vector = trace_relator(alloc, table, field, id, relator)?;
    Ok(vector)
}

/// The vector of a submodule relation.
pub(crate) fn traced_submodule_relation(
    alloc: Global,
    table: &Table,
    number: u32,
) -> Result<Sparse, Memory>
    requires number { number < length (presented table.now).submodule }
    requires due { element_reach (presented table.now) (submodule_relation (presented table.now) number) ≤ table.now.level }
    ensures traced { IfOk result (λ v. IsReducedOf ◌<◌ nat_eq (presented table.now).prime v
        (vector_of (row_at table.now) table.now.images (submodule_relation (presented table.now) number))) }
    ensures row { IfOk result (IsRow (presented table.now).prime (length table.now.words)) }
    ensures vanishes { IfOk result (λ v. DerivedWithin (presented table.now) table.now.level (element_of table.now v)) }
{
    products_are_found();
    relations_are_own();
    levels_are_closed();
    sums_add_coefficients();
    let presentation = table.presentation();
    let field = presentation.field();
    field.has_prime();
    let relation = presentation.sub(number);
    let images = table.images();
    let vector = trace_sub(alloc, table, field, images, relation)?;
    Ok(vector)
}

/// Deletes a vector that vanishes, once it has live ids alone.
fn impose(alloc: Global, table: &mut Table, vector: &Sparse) -> Result<Option<u32>, Memory>
    requires row { IsRow (presented table.old).prime (length table.old.words) vector.now }
    requires vanishes { DerivedWithin (presented table.old) table.old.level (element_of table.old vector.now) }
    ensures imposed { IfOk result (λ died. Imposes table.old vector.now died table.new) }
    ensures err { OnErr result (table.new ≡ table.old) }
    ensures sound { IsSound table.new }
{
    levels_are_closed();
    sums_add_coefficients();
    table.presentation().field().has_prime();
    let resolved = resolve(alloc, table, vector)?;
    Ok(delete(table, resolved))
}
