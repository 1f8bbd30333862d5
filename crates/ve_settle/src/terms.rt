ghost use Rattle.std.specs.Prelude.{◌<◌, ◌++◌, OnOk, nat_eq};
ghost use Rattle.ve_theory.specs.Combinations.{scaled, unit, IsReduced, IsReducedOf};

use ve_field::Field;
use ve_vec::{Sparse, Term};
use ve_word::Memory;

/// Adds a term to a vector.
pub(crate) fn add_term(sum: &mut Sparse, field: &Field, term: Term) -> Result<(), Memory>
    requires large { 1 < field.now }
    requires fits { IsReduced ◌<◌ field.now sum.old }
    requires residue { term.coef < field.now }
    ensures { OnOk result (IsReducedOf ◌<◌ nat_eq field.now sum.new (sum.old ++ scaled term.coef (unit term.id))) }
{
    let unit = Term {
        id: term.id,
        coef: 1,
    };
    sum.add_scaled_term(field, term.coef, unit)?;
    Ok(())
}
