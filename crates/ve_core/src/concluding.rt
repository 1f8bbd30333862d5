//! Relations by which ids die.

ghost use Rattle.std.specs.Prelude.{◌≡◌, ◌↔◌, IfOk, IsTrue, OnErr, OnOk};
ghost use Rattle.ve_machine.specs.Machines.{Move, to_conclude};
ghost use Rattle.ve_machine.specs.Allowed.{IsAllowed};
ghost use Rattle.ve_core.specs.Moving.{Tries};

use crate::CoreState;
use crate::desk::Desk;
use crate::entry::Entry;
use crate::sum::take_sum;
use ve_machine::hands::moves_go_right;
use ve_machine::seats::steps_keep_sound;
use ve_settle::delete;
use ve_word::Memory;

impl CoreState {
    /// A seat lets the greatest id of its relation die, where the relation names live ids alone. One that is zero is dropped.
    pub(crate) fn conclude(&mut self, seat: u32) -> Result<bool, Memory>
        ensures ok { IfOk result (λ moved. Tries self.old (to_conclude seat) moved self.new) }
        ensures err { OnErr result (self.new ≡ self.old) }
    {
        if !self.can_conclude(seat) {
            return Ok(false);
        }
        self.let_die(seat)?;
        Ok(true)
    }

    /// Whether a relation is on the seat's desk, and names live ids alone.
    fn can_conclude(&self, seat: u32) -> bool
        ensures { IsTrue result ↔ IsAllowed self.now (to_conclude seat) }
    {
        if !self.has_relation(seat) {
            return false;
        }
        match self.sum(seat) {
            Some(vector) => self.table.has_live_ids(vector),
            None => false,
        }
    }

    fn let_die(&mut self, seat: u32) -> Result<(), Memory>
        requires { IsAllowed self.old (to_conclude seat) }
        ensures ok { OnOk result (Move self.old (to_conclude seat) self.new) }
        ensures err { OnErr result (self.new ≡ self.old) }
    {
        moves_go_right();
        steps_keep_sound();
        self.journal.reserve(1)?;
        let vector = take_sum(self.alloc, &mut self.hands[seat as usize]);
        self.desks[seat as usize] = Desk::empty();
        if let Some(id) = delete(&mut self.table, vector) {
            self.journal.push_reserved(Entry { seat, id });
        }
        Ok(())
    }
}
