ghost use Rattle.std.specs.Prelude.{IfErr, IfOk, OnErr, OnOk};
ghost use Rattle.ve_machine.specs.Finished.{IsFinishedTable};
ghost use Rattle.ve_pack.specs.Packing.{IsPacking, IsPartlyResolved};

use crate::resolving::resolve_all;
use std::alloc::Global;
use ve_machine::finished::stays_finished;
use ve_machine::forwards::forwardings_are_a_space;
use ve_settle::{Finished, finish};
use ve_table::Table;
use ve_word::Memory;

/// Resolves the rows of live ids and the images, and drops dead ids. Where room is refused, some of these are resolved, and no dead id
/// is dropped.
pub fn pack(alloc: Global, finished: Finished) -> Result<Finished, Finished>
    ensures packed { IfOk result (IsPacking finished) }
    ensures memory { IfErr result (IsPartlyResolved finished) }
{
    forwardings_are_a_space();
    finished.is_finished();
    if finished.is_packed() {
        return Ok(finished);
    }
    let mut table = finished.into_table();
    match pack_table(alloc, &mut table) {
        Ok(()) => Ok(finish(table)),
        Err(Memory) => Err(finish(table)),
    }
}

fn pack_table(alloc: Global, table: &mut Table) -> Result<(), Memory>
    requires { IsFinishedTable table.old }
    ensures finished { IsFinishedTable table.new }
    ensures ok { OnOk result (IsPacking table.old table.new) }
    ensures err { OnErr result (IsPartlyResolved table.old table.new) }
{
    forwardings_are_a_space();
    stays_finished();
    resolve_all(alloc, table)?;
    table.drop_dead()?;
    Ok(())
}
