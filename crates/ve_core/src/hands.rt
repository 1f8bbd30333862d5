//! What seats do with their hands alone.

ghost use Rattle.std.specs.Prelude.{◌≡◌, IfOk, OnErr};
ghost use Rattle.ve_machine.specs.Machines.{to_apply, to_repair};
ghost use Rattle.ve_core.specs.Events.{local_of};
ghost use Rattle.ve_core.specs.Moving.{Tries};

use crate::{CoreState, Local};
use ve_machine::hands::moves_go_right;
use ve_word::Memory;

impl CoreState {
    /// A seat goes on with its hand.
    pub(crate) fn go_on(&mut self, seat: u32, what: Local) -> Result<bool, Memory>
        ensures ok { IfOk result (λ moved. Tries self.old (local_of seat what) moved self.new) }
        ensures err { OnErr result (self.new ≡ self.old) }
    {
        match what {
            Local::Repair => self.repair(seat),
            Local::Apply => self.apply(seat),
        }
    }

    /// Puts the forwards that were read in their ids' places.
    fn repair(&mut self, seat: u32) -> Result<bool, Memory>
        ensures ok { IfOk result (λ moved. Tries self.old (to_repair seat) moved self.new) }
        ensures err { OnErr result (self.new ≡ self.old) }
    {
        moves_go_right();
        if seat as usize >= self.hands.len() {
            return Ok(false);
        }
        let field = *self.table.presentation().field();
        let repaired = self.hands[seat as usize].repair(self.alloc, &field)?;
        Ok(repaired)
    }

    /// Goes on with what was read.
    fn apply(&mut self, seat: u32) -> Result<bool, Memory>
        ensures ok { IfOk result (λ moved. Tries self.old (to_apply seat) moved self.new) }
        ensures err { OnErr result (self.new ≡ self.old) }
    {
        moves_go_right();
        if seat as usize >= self.hands.len() {
            return Ok(false);
        }
        let field = *self.table.presentation().field();
        let applied = self.hands[seat as usize].apply(self.alloc, &field)?;
        Ok(applied)
    }
}
