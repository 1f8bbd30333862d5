//! What seats read.

ghost use Rattle.std.specs.Prelude.{◌≡◌, IfOk, OnErr, OnOk};
ghost use Rattle.ve_machine.specs.SharedSteps.{CanRead};
ghost use Rattle.ve_machine.specs.Machines.{Move, to_read};
ghost use Rattle.ve_core.specs.Moving.{Tries};

use crate::CoreState;
use ve_machine::hands::moves_go_right;
use ve_word::Memory;

impl CoreState {
    /// A seat reads what its hand needs next.
    pub(crate) fn read(&mut self, seat: u32) -> Result<bool, Memory>
        ensures ok { IfOk result (λ moved. Tries self.old (to_read seat) moved self.new) }
        ensures err { OnErr result (self.new ≡ self.old) }
    {
        if !self.is_busy(seat) {
            return Ok(false);
        }
        self.look_up(seat)?;
        Ok(true)
    }

    fn look_up(&mut self, seat: u32) -> Result<(), Memory>
        requires { CanRead self.old.shared seat }
        ensures ok { OnOk result (Move self.old (to_read seat) self.new) }
        ensures err { OnErr result (self.new ≡ self.old) }
    {
        moves_go_right();
        self.hands[seat as usize].read(&self.table)?;
        Ok(())
    }
}
