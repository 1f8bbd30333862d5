//! What a seat has taken and not yet brought back.

ghost use Rattle.std.specs.Prelude.{◌≡◌, ◌↔◌, IfSome, IsNone, IsTrue};
ghost use Rattle.ve_theory.specs.Answers.{Row};
ghost use Rattle.ve_machine.specs.Seats.{Job as SeatJob, empty_desk, with_job, with_relation};
ghost use Rattle.ve_hand.specs.Jobs.{job_of};

use std::marker::Model;
use std::snapshot::Snapshot;
use ve_hand::Job;
use ve_vec::Sparse;

/// What lies on a desk. The relation itself is in the seat's hand, so that the desk's is for contracts alone.
#[derive(Drop)]
enum Held {
    Nothing,
    Job(Job),
    Relation(Snapshot<Sparse>),
}

/// The desk of a seat.
#[derive(Drop)]
pub(crate) struct Desk {
    held: Held,
}

impl Model for Desk {
    ghost use Rattle.ve_machine.specs.Seats.{Desk as SeatDesk};
    ghost use Rattle.ve_machine.specs.MachineCodes.{desk_code};

    ghost Value = { SeatDesk };

    ghost coded = { desk_code };

    ghost use Rattle.ve_core.specs.Desks.{desk_of};

    ghost view = { λ desk. desk_of desk.held };
}

impl Desk {
    pub(crate) fn empty() -> Desk
        ensures { result ≡ empty_desk }
    {
        Desk {
            held: Held::Nothing,
        }
    }

    pub(crate) fn with_job(job: Job) -> Desk
        ensures { result ≡ with_job (job_of job) }
    {
        Desk {
            held: Held::Job(job),
        }
    }

    pub(crate) fn with_relation(relation: &Sparse) -> Desk
        ensures { result ≡ with_relation relation.now }
    {
        Desk {
            held: Held::Relation(Snapshot::of(relation)),
        }
    }

    pub(crate) fn is_empty(&self) -> bool
        ensures { IsTrue result ↔ (self.now ≡ empty_desk) }
    {
        match &self.held {
            Held::Nothing => true,
            Held::Job(_) | Held::Relation(_) => false,
        }
    }

    /// The job on the desk, where there is one.
    pub(crate) fn job(&self) -> Option<Job>
        ensures some { IfSome result (λ job. self.now ≡ with_job (job_of job)) }
        ensures none { IsNone result → (job : SeatJob) → ¬ (self.now ≡ with_job job) }
    {
        match &self.held {
            Held::Job(job) => Some(*job),
            Held::Nothing | Held::Relation(_) => None,
        }
    }

    /// Whether this job is on the desk.
    pub(crate) fn has_job(&self, job: Job) -> bool
        ensures { IsTrue result ↔ (self.now ≡ with_job (job_of job)) }
    {
        match &self.held {
            Held::Job(held) => *held == job,
            Held::Nothing | Held::Relation(_) => false,
        }
    }

    /// Whether a relation is on the desk.
    pub(crate) fn has_relation(&self) -> bool
        ensures { IsTrue result ↔ ((v : Row) × (self.now ≡ with_relation v)) }
    {
        match &self.held {
            Held::Relation(_) => true,
            Held::Nothing | Held::Job(_) => false,
        }
    }
}
