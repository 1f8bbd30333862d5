//! The state, and what others may ask of it.

ghost use Rattle.std.specs.Prelude.{◌≡◌, ◌≤◌, ◌↔◌, IfOk, IfSome, IsNone, IsTrue, length, replicate};
ghost use Rattle.ve_theory.specs.Answers.{Row};
ghost use Rattle.ve_machine.specs.Finished.{IsPacked};
ghost use Rattle.ve_machine.specs.Seats.{HasDesk, Job as SeatJob, empty_desk, present, with_job, with_relation};
ghost use Rattle.ve_machine.specs.Hands.{empty_hand};
ghost use Rattle.ve_machine.specs.SharedSteps.{CanRead};
ghost use Rattle.ve_machine.specs.Machines.{IsRightMachine, opened_machine};
ghost use Rattle.ve_hand.specs.Jobs.{job_of};

use crate::desk::Desk;
use crate::done::Done;
use crate::entry::Entry;
use std::alloc::Global;
use std::marker::Model;
use std::snapshot::Snapshot;
use ve_hand::{Hand, Job};
use ve_table::Table;
use ve_vec::Sparse;
use ve_word::Memory;

/// The machine that seats share, with the desk and the hand of each.
#[derive(Drop)]
pub struct CoreState {
    pub(crate) alloc: Global,
    // As it is now.
    pub(crate) table: Table,
    // As it was at the beginning of the level, for contracts alone.
    pub(crate) opening: Snapshot<Table>,
    pub(crate) done: Done,
    // The relations that wait.
    pub(crate) queue: Vec<Sparse>,
    // For each seat.
    pub(crate) desks: Vec<Desk>,
    pub(crate) hands: Vec<Hand>,
    pub(crate) journal: Vec<Entry>,
}

impl Model for CoreState {
    ghost use Rattle.ve_machine.specs.Machines.{Machine};
    ghost use Rattle.ve_machine.specs.MachineCodes.{machine_code};

    ghost Value = { Machine };

    ghost coded = { machine_code };

    ghost use Rattle.ve_core.specs.Kept.{machine_of, IsKept};

    ghost view = { machine_of };

    ghost invariant = { IsKept };
}

impl CoreState {
    /// The machine at the beginning of the table's level.
    pub fn open(alloc: Global, table: &Table, seats: u32) -> Result<CoreState, Memory>
        requires seats { 1 ≤ seats }
        requires packed { IsPacked table.now }
        ensures { IfOk result (λ state. state ≡ opened_machine table.now seats) }
    {
        ve_machine::hands::machines_stay_right();
        table.is_sound();
        Ok(CoreState {
            alloc,
            table: table.copy()?,
            opening: Snapshot::of(table),
            done: Done::new(alloc),
            queue: Vec::new(alloc),
            desks: empty_desks(alloc, seats)?,
            hands: empty_hands(alloc, seats)?,
            journal: Vec::new(alloc),
        })
    }

    /// The machine is right, whatever seats did.
    pub fn is_right(&self)
        ensures { IsRightMachine self.now }
    {
        let _table = &self.table;
    }

    /// The table as it is now.
    pub fn table(&self) -> &Table
        ensures { result.now ≡ present self.now.shared }
    {
        &self.table
    }

    /// How many seats there are.
    pub fn seats(&self) -> usize
        ensures { result ≡ length self.now.shared.desks }
    {
        self.desks.len()
    }

    /// How many relations wait.
    pub fn queue_len(&self) -> usize
        ensures { result ≡ length self.now.shared.queue }
    {
        self.queue.len()
    }

    /// Whether there is such a seat, and its desk is empty.
    pub(crate) fn is_idle(&self, seat: u32) -> bool
        ensures { IsTrue result ↔ HasDesk self.now.shared seat empty_desk }
    {
        match self.desks.get(seat as usize) {
            Some(desk) => desk.is_empty(),
            None => false,
        }
    }

    /// Whether something is on the seat's desk.
    pub(crate) fn is_busy(&self, seat: u32) -> bool
        ensures { IsTrue result ↔ CanRead self.now.shared seat }
    {
        match self.desks.get(seat as usize) {
            Some(desk) => !desk.is_empty(),
            None => false,
        }
    }

    /// The job on the seat's desk, where there is one.
    pub(crate) fn job(&self, seat: u32) -> Option<Job>
        ensures some { IfSome result (λ job. HasDesk self.now.shared seat (with_job (job_of job))) }
        ensures none { IsNone result → (job : SeatJob) → ¬ HasDesk self.now.shared seat (with_job job) }
    {
        self.desks.get(seat as usize)?.job()
    }

    /// Whether a relation is on the seat's desk.
    pub(crate) fn has_relation(&self, seat: u32) -> bool
        ensures { IsTrue result ↔ ((v : Row) × HasDesk self.now.shared seat (with_relation v)) }
    {
        match self.desks.get(seat as usize) {
            Some(desk) => desk.has_relation(),
            None => false,
        }
    }
}

fn empty_desks(alloc: Global, seats: u32) -> Result<Vec<Desk>, Memory>
    ensures { IfOk result (λ desks. desks.items ≡ replicate seats empty_desk) }
{
    let mut desks = Vec::new(alloc);
    for _seat in 0..seats {
        desks.push(Desk::empty())?;
    }
    Ok(desks)
}

fn empty_hands(alloc: Global, seats: u32) -> Result<Vec<Hand>, Memory>
    ensures { IfOk result (λ hands. hands.items ≡ replicate seats empty_hand) }
{
    let mut hands = Vec::new(alloc);
    for _seat in 0..seats {
        hands.push(Hand::empty(alloc))?;
    }
    Ok(hands)
}
