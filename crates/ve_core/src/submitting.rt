//! Jobs that seats have done.

ghost use Rattle.std.specs.Prelude.{◌≡◌, IfOk, OnErr, OnOk};
ghost use Rattle.ve_theory.specs.Answers.{Row};
ghost use Rattle.ve_machine.specs.Seats.{HasDesk, with_job};
ghost use Rattle.ve_machine.specs.Machines.{Move, to_submit};
ghost use Rattle.ve_machine.specs.Allowed.{HasSum};
ghost use Rattle.ve_hand.specs.Jobs.{job_of};
ghost use Rattle.ve_core.specs.Moving.{Tries};

use crate::CoreState;
use crate::desk::Desk;
use crate::sum::take_sum;
use ve_hand::Job;
use ve_machine::hands::moves_go_right;
use ve_word::Memory;

impl CoreState {
    /// A seat brings the vector of its job.
    pub(crate) fn submit(&mut self, seat: u32) -> Result<bool, Memory>
        ensures ok { IfOk result (λ moved. Tries self.old (to_submit seat) moved self.new) }
        ensures err { OnErr result (self.new ≡ self.old) }
    {
        let Some(job) = self.job(seat) else {
            return Ok(false);
        };
        let Some(_sum) = self.sum(seat) else {
            return Ok(false);
        };
        self.bring(seat, job)?;
        Ok(true)
    }

    /// The job is done, and its vector goes to the end of the queue.
    fn bring(&mut self, seat: u32, job: Job) -> Result<(), Memory>
        requires desk { HasDesk self.old.shared seat (with_job (job_of job)) }
        requires sum { (v : Row) × HasSum self.old seat v }
        ensures ok { OnOk result (Move self.old (to_submit seat) self.new) }
        ensures err { OnErr result (self.new ≡ self.old) }
    {
        moves_go_right();
        self.queue.reserve(1)?;
        self.done.add(job)?;
        let vector = take_sum(self.alloc, &mut self.hands[seat as usize]);
        self.queue.push_reserved(vector);
        self.desks[seat as usize] = Desk::empty();
        Ok(())
    }
}
