ghost use Rattle.std.specs.Prelude.{◌≡◌, ◌↔◌, IfOk, IsTrue, OnErr, OnOk, map};
ghost use Rattle.ve_machine.specs.Seats.{opened_state};
ghost use Rattle.ve_machine.specs.Hands.{next_hand};
ghost use Rattle.ve_machine.specs.HandSteps.{read_hand};
ghost use Rattle.ve_machine.specs.Allowed.{CanApply, CanRepair};
ghost use Rattle.ve_hand.specs.Fits.{FitsHand};
ghost use Rattle.ve_hand.specs.Outcomes.{AppliesHand, RepairsHand};
ghost use Rattle.ve_hand.specs.Parts.{part_of};
ghost use Rattle.ve_hand.specs.Views.{stage_of};

use crate::part::{Beginning, Part};
use crate::read_vector::ReadVector;
use crate::starting::Starting;
use crate::tracing::Tracing;
use std::alloc::Global;
use std::collections::VecDeque;
use ve_field::Field;
use ve_table::Table;
use ve_vec::Sparse;
use ve_word::Memory;

/// How far a job is traced.
#[derive(Drop)]
pub(crate) enum Stage {
    /// There is no job.
    Empty,
    /// A part is to begin.
    Starting(Starting),
    /// A part is traced.
    Tracing(Tracing),
    /// All is summed.
    Summed(ReadVector),
}

impl Stage {
    /// Reads what is needed next.
    pub(crate) fn read(&mut self, alloc: Global, table: &Table) -> Result<(), Memory>
        ensures ok { OnOk result (stage_of self.new ≡ read_hand (opened_state table.now 0) (stage_of self.old)) }
        ensures err { OnErr result (self.new ≡ self.old) }
    {
        match self {
            Stage::Empty => Ok(()),
            Stage::Starting(starting) => starting.read(alloc, table),
            Stage::Tracing(tracing) => tracing.read(alloc, table),
            Stage::Summed(vector) => vector.read(alloc, table, None),
        }
    }

    /// Whether forwards were read.
    pub(crate) fn can_repair(&self) -> bool
        ensures { IsTrue result ↔ CanRepair (stage_of self.now) }
    {
        match self {
            Stage::Empty | Stage::Starting(_) => false,
            Stage::Tracing(tracing) => tracing.product.has_forwards(),
            Stage::Summed(vector) => vector.has_forwards(),
        }
    }

    /// Whether all was read that the job needs to go on.
    pub(crate) fn can_apply(&self) -> bool
        ensures { IsTrue result ↔ CanApply (stage_of self.now) }
    {
        match self {
            Stage::Empty | Stage::Summed(_) => false,
            Stage::Starting(starting) => starting.read.is_some(),
            Stage::Tracing(tracing) => tracing.letters.is_empty() || tracing.product.has_rows(),
        }
    }

    /// Puts the forwards that were read in their ids' places. Whether there were any.
    pub(crate) fn repair(&mut self, alloc: Global, field: &Field) -> Result<bool, Memory>
        requires { FitsHand field.now (stage_of self.old) }
        ensures ok { IfOk result (λ had. RepairsHand field.now (stage_of self.old) had (stage_of self.new)) }
        ensures err { OnErr result (stage_of self.new ≡ stage_of self.old) }
    {
        match self {
            Stage::Empty | Stage::Starting(_) => Ok(false),
            Stage::Tracing(tracing) => tracing.repair(alloc, field),
            Stage::Summed(vector) => vector.repair(alloc, field),
        }
    }

    /// Goes on by what was read. Whether it was enough.
    pub(crate) fn apply(&mut self, alloc: Global, field: &Field) -> Result<bool, Memory>
        requires { FitsHand field.now (stage_of self.old) }
        ensures ok { IfOk result (λ had. AppliesHand field.now (stage_of self.old) had (stage_of self.new)) }
        ensures err { OnErr result (stage_of self.new ≡ stage_of self.old) }
    {
        match self {
            Stage::Empty | Stage::Summed(_) => Ok(false),
            Stage::Starting(starting) => {
                let Some(tracing) = starting.begin(alloc, field)? else {
                    return Ok(false);
                };
                *self = Stage::Tracing(tracing);
                Ok(true)
            }
            Stage::Tracing(tracing) => {
                if !tracing.letters.is_empty() {
                    return tracing.multiply(alloc, field);
                }
                *self = tracing.sum_part(alloc, field)?;
                Ok(true)
            }
        }
    }
}

/// The stage where the next part comes.
pub(crate) fn next_stage(alloc: Global, sum: Sparse, mut parts: VecDeque<Part>) -> Stage
    ensures { stage_of result ≡ next_hand sum (map part_of parts.items) }
{
    let Some(part) = parts.pop_front() else {
        return Stage::Summed(ReadVector::unread(sum));
    };
    match part.beginning {
        Beginning::Id(id) => Stage::Tracing(Tracing {
            sum,
            coef: part.coef,
            parts,
            product: ReadVector::unread(Sparse::unit(alloc, id)),
            letters: part.letters,
        }),
        _ => Stage::Starting(Starting {
            sum,
            part,
            parts,
            read: None,
        }),
    }
}
