//! Jobs and relations that seats give back.

ghost use Rattle.std.specs.Prelude.{◌≡◌, IfOk, OnErr, OnOk};
ghost use Rattle.ve_theory.specs.Answers.{Row};
ghost use Rattle.ve_machine.specs.Seats.{HasDesk, Job as SeatJob, with_job, with_relation};
ghost use Rattle.ve_machine.specs.Machines.{Move, to_return};
ghost use Rattle.ve_core.specs.Moving.{Tries};

use crate::CoreState;
use crate::desk::Desk;
use crate::sum::take_sum;
use ve_hand::Hand;
use ve_machine::hands::moves_go_right;
use ve_word::Memory;

impl CoreState {
    /// A seat gives its job back, which waits again, or its relation, which goes to the end of the queue.
    pub(crate) fn give_back(&mut self, seat: u32) -> Result<bool, Memory>
        ensures ok { IfOk result (λ moved. Tries self.old (to_return seat) moved self.new) }
        ensures err { OnErr result (self.new ≡ self.old) }
    {
        if self.has_relation(seat) {
            self.give_relation_back(seat)?;
            return Ok(true);
        }
        if self.job(seat).is_none() {
            return Ok(false);
        }
        self.give_job_back(seat);
        Ok(true)
    }

    fn give_job_back(&mut self, seat: u32)
        requires { (job : SeatJob) × HasDesk self.old.shared seat (with_job job) }
        ensures { Move self.old (to_return seat) self.new }
    {
        moves_go_right();
        self.desks[seat as usize] = Desk::empty();
        self.hands[seat as usize] = Hand::empty(self.alloc);
    }

    fn give_relation_back(&mut self, seat: u32) -> Result<(), Memory>
        requires { (v : Row) × HasDesk self.old.shared seat (with_relation v) }
        ensures ok { OnOk result (Move self.old (to_return seat) self.new) }
        ensures err { OnErr result (self.new ≡ self.old) }
    {
        moves_go_right();
        self.queue.reserve(1)?;
        let vector = take_sum(self.alloc, &mut self.hands[seat as usize]);
        self.queue.push_reserved(vector);
        self.desks[seat as usize] = Desk::empty();
        Ok(())
    }
}
