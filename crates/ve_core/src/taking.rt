//! Jobs that seats take.

ghost use Rattle.std.specs.Prelude.{◌≡◌, ◌↔◌, Contains, IfOk, IsTrue, OnErr, OnOk};
ghost use Rattle.ve_machine.specs.Jobs.{IsSubmoduleJob};
ghost use Rattle.ve_machine.specs.Seats.{image_job, relator_job, with_job};
ghost use Rattle.ve_machine.specs.SharedJobs.{HasLiveId, IsOfLevel, IsWaiting};
ghost use Rattle.ve_machine.specs.SharedSteps.{CanTake};
ghost use Rattle.ve_machine.specs.Machines.{Move, to_take};
ghost use Rattle.ve_hand.specs.Jobs.{job_of};
ghost use Rattle.ve_core.specs.Moving.{Tries};

use crate::CoreState;
use crate::desk::Desk;
use ve_hand::{Hand, Job};
use ve_machine::hands::moves_go_right;
use ve_table::Table;
use ve_word::Memory;

impl CoreState {
    /// A seat takes a job that waits.
    pub(crate) fn take(&mut self, seat: u32, job: Job) -> Result<bool, Memory>
        ensures ok { IfOk result (λ moved. Tries self.old (to_take seat (job_of job)) moved self.new) }
        ensures err { OnErr result (self.new ≡ self.old) }
    {
        if !self.is_idle(seat) || !self.is_waiting(job) {
            return Ok(false);
        }
        self.begin(seat, job)?;
        Ok(true)
    }

    fn begin(&mut self, seat: u32, job: Job) -> Result<(), Memory>
        requires { CanTake self.old.shared seat (job_of job) }
        ensures ok { OnOk result (Move self.old (to_take seat (job_of job)) self.new) }
        ensures err { OnErr result (self.new ≡ self.old) }
    {
        moves_go_right();
        let hand = Hand::of_job(self.alloc, &self.table, job)?;
        self.desks[seat as usize] = Desk::with_job(job);
        self.hands[seat as usize] = hand;
        Ok(())
    }

    /// Whether the job is one of the level's, and neither done nor on a desk.
    fn is_waiting(&self, job: Job) -> bool
        ensures { IsTrue result ↔ IsWaiting self.now.shared (job_of job) }
    {
        self.is_due(job) && !self.is_done(job) && !self.is_on_desk(job)
    }

    fn is_due(&self, job: Job) -> bool
        ensures { IsTrue result ↔ (IsOfLevel self.now.shared.opening self.now.shared.forwards (job_of job) × HasLiveId self.now.shared.forwards (job_of job)) }
    {
        is_of_level(&self.table, job)
    }

    fn is_done(&self, job: Job) -> bool
        ensures { IsTrue result ↔ Contains self.now.shared.done (job_of job) }
    {
        self.done.contains(job)
    }

    fn is_on_desk(&self, job: Job) -> bool
        ensures { IsTrue result ↔ Contains self.now.shared.desks (with_job (job_of job)) }
    {
        for desk in &self.desks {
            if desk.has_job(job) {
                return true;
            }
        }
        false
    }
}

/// Whether the job is one of the level's. A relator's id has to be live.
fn is_of_level(table: &Table, job: Job) -> bool
    ensures { IsTrue result ↔ (IsOfLevel table.now table.now.forwards (job_of job) × HasLiveId table.now.forwards (job_of job)) }
{
    match job {
        Job::Relator { id, number } => is_relator_job(table, id, number),
        Job::Sub { number } => is_submodule_job(table, number),
        Job::Image { id, letter } => is_image_job(table, id, letter),
    }
}

fn is_relator_job(table: &Table, id: u32, number: u32) -> bool
    ensures { IsTrue result ↔ (IsOfLevel table.now table.now.forwards (relator_job id number) × HasLiveId table.now.forwards (relator_job id number)) }
{
    id < table.id_count()
        && table.is_live(id)
        && number < table.presentation().relator_count()
        && table.due(id, number) == u64::from(table.level())
}

fn is_submodule_job(table: &Table, number: u32) -> bool
    ensures { IsTrue result ↔ IsSubmoduleJob table.now number }
{
    number < table.presentation().sub_count() && table.due_sub(number) == u64::from(table.level())
}

fn is_image_job(table: &Table, id: u32, letter: u8) -> bool
    ensures { IsTrue result ↔ IsOfLevel table.now table.now.forwards (image_job id letter) }
{
    if id >= table.id_count() {
        return false;
    }
    match table.forward(id) {
        Some(_) => table.has_row(id, letter),
        None => false,
    }
}
