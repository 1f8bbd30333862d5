ghost use Rattle.std.specs.Prelude.{◌<◌, IfOk, IsSome, length, nat_eq};
ghost use Rattle.ve_theory.specs.Combinations.{IsReducedOf};
ghost use Rattle.ve_theory.specs.Answers.{IsRow};
ghost use Rattle.ve_theory.specs.Derivations.{DerivedWithin};
ghost use Rattle.ve_table.specs.Tables.{element_of, presented, row_at, IsDead};
ghost use Rattle.ve_machine.specs.Forwards.{image_difference};

use crate::rows::row_of;
use std::alloc::Global;
use ve_table::Table;
use ve_trace::add_times_letter;
use ve_vec::Sparse;
use ve_word::Memory;

/// The row of a dead id at a letter, less the same combination of rows as its forward has of ids.
pub fn image_of(alloc: Global, table: &Table, dead: u32, letter: u8) -> Result<Sparse, Memory>
    requires dead { IsDead table.now dead }
    requires row { IsSome (row_at table.now dead letter) }
    ensures difference { IfOk result (λ v. IsReducedOf ◌<◌ nat_eq (presented table.now).prime v (image_difference (presented table.now).prime (row_at table.now) table.now.forwards dead letter)) }
    ensures row { IfOk result (IsRow (presented table.now).prime (length table.now.words)) }
    ensures derived { IfOk result (λ v. DerivedWithin (presented table.now) table.now.level (element_of table.now v)) }
{
    ve_theory::order::reach_adds_up();
    ve_theory::order::words_are_ordered();
    table.is_sound();
    let forward = table.forward(dead).unwrap();
    let mut image = row_of(table, dead, letter).copy()?;
    let field = table.presentation().field();
    field.has_prime();
    add_times_letter(
        &mut image,
        alloc,
        table,
        field,
        field.neg(1),
        forward,
        letter,
    )?;
    Ok(image)
}
