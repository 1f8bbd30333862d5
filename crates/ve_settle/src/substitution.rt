ghost use Rattle.std.specs.Prelude.{◌≡◌, ◌<◌, IfOk, IsSome, OnErr, length};
ghost use Rattle.ve_theory.specs.Answers.{IsRow};
ghost use Rattle.ve_table.specs.Tables.{presented, row_at};
ghost use Rattle.ve_table.specs.Sound.{IsSound};
ghost use Rattle.ve_machine.specs.Forwards.{IsRewritten};
ghost use Rattle.ve_settle.specs.Settling.{Rewrites};

use crate::rows::row_of;
use crate::terms::add_term;
use std::alloc::Global;
use ve_table::Table;
use ve_vec::Sparse;
use ve_word::Memory;

/// Replaces all dead ids of a row by the vectors that stand for them, once. Whether there was one.
pub fn rewrite(alloc: Global, table: &mut Table, id: u32, letter: u8) -> Result<bool, Memory>
    requires { IsSome (row_at table.old id letter) }
    ensures ok { IfOk result (λ had. Rewrites table.old id letter had table.new) }
    ensures err { OnErr result (table.new ≡ table.old) }
    ensures sound { IsSound table.new }
{
    table.is_sound();
    ve_theory::order::words_are_ordered();
    let row = row_of(table, id, letter);
    if table.has_live_ids(row) {
        return Ok(false);
    }
    let next = rewritten(alloc, table, row)?;
    table.set_row(id, letter, next);
    Ok(true)
}

/// The vector with each dead id replaced by the one that stands for it. Dead ids that these bring in stay.
fn rewritten(alloc: Global, table: &Table, vector: &Sparse) -> Result<Sparse, Memory>
    requires { IsRow (presented table.now).prime (length table.now.words) vector.now }
    ensures { IfOk result (IsRewritten (presented table.now).prime table.now.forwards vector.now) }
{
    let field = *table.presentation().field();
    // The live ids stay in order, so that each goes to the end.
    let mut kept = Sparse::zero(alloc);
    let mut brought = Sparse::zero(alloc);
    for at in 0..vector.len() {
        let term = vector.term(at);
        match table.forward(term.id) {
            Some(forward) => brought.add_scaled(&field, term.coef, forward)?,
            None => add_term(&mut kept, &field, term)?,
        }
    }
    kept.add_scaled(&field, 1, &brought)?;
    Ok(kept)
}
