//! Hands, as a machine of many seats holds them.

ghost use Rattle.std.specs.Prelude.{◌≡◌, ◌≢◌, ℕ, ◌<◌, ◌↔◌, [], IfNone, IfOk, IfSome, IsTrue, OnErr, OnOk};
ghost use Rattle.ve_theory.specs.Combinations.{IsReduced};
ghost use Rattle.ve_theory.specs.Answers.{Row};
ghost use Rattle.ve_table.specs.Tables.{presented};
ghost use Rattle.ve_machine.specs.Seats.{State, present};
ghost use Rattle.ve_machine.specs.Hands.{Reading, empty_hand, next_hand, parts_of, summed_hand, unread};
ghost use Rattle.ve_machine.specs.HandSteps.{read_hand};
ghost use Rattle.ve_machine.specs.Allowed.{CanApply, CanRepair};
ghost use Rattle.ve_hand.specs.Fits.{FitsHand};
ghost use Rattle.ve_hand.specs.Jobs.{HasRelation, job_of};
ghost use Rattle.ve_hand.specs.Outcomes.{AppliesHand, RepairsHand};

use crate::Job;
use crate::part::parts_of_job;
use crate::read_vector::ReadVector;
use crate::stage::{Stage, next_stage};
use std::alloc::Global;
use std::marker::Model;
use ve_field::Field;
use ve_table::Table;
use ve_vec::Sparse;
use ve_word::Memory;

/// What a seat holds of the job or relation on its desk: how far it is traced, and what was last read for it.
#[derive(Drop)]
pub struct Hand {
    alloc: Global,
    stage: Stage,
}

impl Model for Hand {
    ghost use Rattle.ve_machine.specs.Hands.{Hand as SeatHand};
    ghost use Rattle.ve_machine.specs.MachineCodes.{hand_code};

    ghost Value = { SeatHand };

    ghost coded = { hand_code };

    ghost use Rattle.ve_hand.specs.Views.{hand_of};

    ghost view = { hand_of };
}

impl Hand {
    /// The hand of a seat whose desk is empty.
    pub fn empty(alloc: Global) -> Hand
        ensures value { result ≡ empty_hand }
        ensures fits { (p : ℕ) → FitsHand p result }
    {
        Hand {
            alloc,
            stage: Stage::Empty,
        }
    }

    /// The hand of a job of which nothing was done.
    pub fn of_job(alloc: Global, table: &Table, job: Job) -> Result<Hand, Memory>
        requires { HasRelation table.now (job_of job) }
        ensures value { IfOk result (λ hand. hand ≡ next_hand [] (parts_of table.now (job_of job))) }
        ensures fits { IfOk result (FitsHand (presented table.now).prime) }
    {
        table.is_sound();
        let parts = parts_of_job(alloc, table, job)?;
        let stage = next_stage(alloc, Sparse::zero(alloc), parts);
        Ok(Hand { alloc, stage })
    }

    /// The hand of a relation for which nothing was read.
    pub fn of_relation(alloc: Global, relation: Sparse) -> Hand
        ensures value { result ≡ summed_hand relation unread }
        ensures fits { (p : ℕ) → IsReduced ◌<◌ p relation → FitsHand p result }
    {
        Hand {
            alloc,
            stage: Stage::Summed(ReadVector::unread(relation)),
        }
    }

    /// Reads what is needed next from a table at work.
    pub fn read(&mut self, table: &Table) -> Result<(), Memory>
        requires { FitsHand (presented table.now).prime self.old }
        ensures ok { OnOk result ((S : State) → present S ≡ table.now → self.new ≡ read_hand S self.old) }
        ensures err { OnErr result (self.new ≡ self.old) }
        ensures fits { FitsHand (presented table.now).prime self.new }
    {
        table.is_sound();
        self.stage.read(self.alloc, table)?;
        Ok(())
    }

    /// Whether forwards were read.
    pub fn can_repair(&self) -> bool
        ensures { IsTrue result ↔ CanRepair self.now }
    {
        self.stage.can_repair()
    }

    /// Whether all was read that the job needs to go on.
    pub fn can_apply(&self) -> bool
        ensures { IsTrue result ↔ CanApply self.now }
    {
        self.stage.can_apply()
    }

    /// Puts the forwards that were read in their ids' places. Whether there were any.
    pub fn repair(&mut self, alloc: Global, field: &Field) -> Result<bool, Memory>
        requires { FitsHand field.now self.old }
        ensures ok { IfOk result (λ had. RepairsHand field.now self.old had self.new) }
        ensures able { IfOk result (λ had. IsTrue had ↔ CanRepair self.old) }
        ensures err { OnErr result (self.new ≡ self.old) }
        ensures fits { FitsHand field.now self.new }
    {
        let had = self.stage.repair(alloc, field)?;
        Ok(had)
    }

    /// Goes on by what was read: begins a part, multiplies by a letter, or sums a part. Whether it was enough.
    pub fn apply(&mut self, alloc: Global, field: &Field) -> Result<bool, Memory>
        requires { FitsHand field.now self.old }
        ensures ok { IfOk result (λ had. AppliesHand field.now self.old had self.new) }
        ensures able { IfOk result (λ had. IsTrue had ↔ CanApply self.old) }
        ensures err { OnErr result (self.new ≡ self.old) }
        ensures fits { FitsHand field.now self.new }
    {
        field.has_prime();
        let had = self.stage.apply(alloc, field)?;
        Ok(had)
    }

    /// The vector of a hand where all is summed.
    pub fn sum(&self) -> Option<&Sparse>
        ensures some { IfSome result (λ v. (reading : Reading) × (self.now ≡ summed_hand v.now reading)) }
        ensures none { IfNone result ((v : Row) (reading : Reading) → self.now ≢ summed_hand v reading) }
    {
        match &self.stage {
            Stage::Summed(vector) => Some(&vector.vector),
            _ => None,
        }
    }

    /// The same, where the hand is given up.
    pub fn into_sum(self) -> Option<Sparse>
        ensures some { IfSome result (λ v. (reading : Reading) × (self ≡ summed_hand v reading)) }
        ensures none { IfNone result ((v : Row) (reading : Reading) → self ≢ summed_hand v reading) }
    {
        match self.stage {
            Stage::Summed(vector) => Some(vector.vector),
            _ => None,
        }
    }
}
