ghost use Rattle.std.specs.Prelude.{◌≡◌, ◌↔◌, [], IfSome, IsNone, length};
ghost use Rattle.ve_theory.specs.Answers.{Row, IsRow};
ghost use Rattle.ve_theory.specs.Derivations.{DerivedWithin};
ghost use Rattle.ve_table.specs.Tables.{element_of, presented};
ghost use Rattle.ve_table.specs.Sound.{HasLiveIds, IsSound};
ghost use Rattle.ve_table.specs.Changes.{with_forward};
ghost use Rattle.ve_machine.specs.Forwards.{IsDrawnFrom};

use ve_table::Table;
use ve_vec::Sparse;

/// Makes the greatest id of a vanishing vector dead. `None` where the vector is zero.
pub fn delete(table: &mut Table, vector: Sparse) -> Option<u32>
    requires row { IsRow (presented table.old).prime (length table.old.words) vector }
    requires live { HasLiveIds table.old vector }
    requires derived { DerivedWithin (presented table.old) table.old.level (element_of table.old vector) }
    ensures zero { IsNone result ↔ (vector ≡ []) }
    ensures same { IsNone result → table.new ≡ table.old }
    ensures dead { IfSome result (λ id. (forward : Row) × IsDrawnFrom (presented table.old).prime vector id forward
        × (table.new ≡ with_forward table.old id forward)) }
    ensures sound { IsSound table.new }
{
    let field = *table.presentation().field();
    let mut forward = vector;
    let leading = forward.take_leading()?;
    let by = field.inv(field.neg(leading.coef));
    forward.scale(&field, by);
    table.kill(leading.id, forward);
    Some(leading.id)
}
