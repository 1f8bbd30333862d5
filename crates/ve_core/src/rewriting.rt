//! Rows that are rewritten.

ghost use Rattle.std.specs.Prelude.{◌≡◌, IfOk, OnErr};
ghost use Rattle.ve_machine.specs.Machines.{to_rewrite};
ghost use Rattle.ve_core.specs.Moving.{Tries};

use crate::CoreState;
use ve_machine::hands::moves_go_right;
use ve_settle::rewrite;
use ve_word::Memory;

impl CoreState {
    /// A row that names a dead id is rewritten.
    pub(crate) fn rewrite(&mut self, id: u32, letter: u8) -> Result<bool, Memory>
        ensures ok { IfOk result (λ moved. Tries self.old (to_rewrite id letter) moved self.new) }
        ensures err { OnErr result (self.new ≡ self.old) }
    {
        moves_go_right();
        if !self.table.has_row(id, letter) {
            return Ok(false);
        }
        let had = rewrite(self.alloc, &mut self.table, id, letter)?;
        Ok(had)
    }
}
