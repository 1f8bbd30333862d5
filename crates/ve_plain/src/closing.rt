ghost use Rattle.std.specs.Prelude.{◌≡◌, [], IfErr, IfOk, OnOk};
ghost use Rattle.ve_table.specs.Tables.{ActionTable};
ghost use Rattle.ve_table.specs.Sound.{IsSound};
ghost use Rattle.ve_machine.specs.Finished.{IsOpening};
ghost use Rattle.ve_machine.specs.Jobs.{IsSettled};
ghost use Rattle.ve_plain.specs.SameLevel.{IsSameLevel};
ghost use Rattle.ve_plain.specs.Working.{Continues, HaveImagesBut, IsAtWork};

use crate::work::Work;
use std::alloc::Global;
use ve_machine::work::{nothing_left_is_finished, openings_are_under_way};
use ve_settle::{Finished, finish};
use ve_table::{Short, Table};
use ve_word::Memory;

/// Does all work of a level that has just been opened. `Short` hands the table back where memory was wanted.
pub fn close_level(alloc: Global, table: Table) -> Result<Finished, Short>
    requires { IsOpening table }
    ensures finished { IfOk result (IsSameLevel table) }
    ensures short { IfErr result (λ short. IsSameLevel table short.table × IsSound short.table) }
{
    openings_are_under_way();
    nothing_left_is_finished();
    table.is_sound();
    let mut work = Work::new(alloc, table);
    match work.do_all() {
        Ok(_) => Ok(finish(work.table)),
        Err(_) => Err(Short { table: work.table }),
    }
}

impl Work {
    /// Does all jobs of the level.
    fn do_all(&mut self) -> Result<(), Memory>
        requires { self.old.waiting.items ≡ [] }
        ensures continues { Continues self.old.table self.new.table }
        ensures settled { OnOk result ((O : ActionTable) → IsAtWork O self.old.table → HaveImagesBut O self.old.table.forwards []
            → IsSettled O self.new.table.forwards) }
    {
        self.submodule_relations()?;
        self.relators()?;
        Ok(())
    }
}
