//! Hands where a part is to begin with what is read for it.

ghost use Rattle.std.specs.Prelude.{◌≡◌, ◌<◌, IfOk, IfSome, IfNone, None, OnErr, OnOk, Some};
ghost use Rattle.ve_theory.specs.Combinations.{IsReduced};
ghost use Rattle.ve_machine.specs.Seats.{opened_state};
ghost use Rattle.ve_machine.specs.HandSteps.{Applies, read_for, read_hand};
ghost use Rattle.ve_hand.specs.Fits.{FitsHand, FitsReading};
ghost use Rattle.ve_hand.specs.Outcomes.{BeginsVector, SumsRead};
ghost use Rattle.ve_hand.specs.Parts.{beginning_of};
ghost use Rattle.ve_hand.specs.Views.{start_of, starting_of, tracing_of};

use crate::lookup::{copy_image, copy_row, copy_stand_in};
use crate::part::{Beginning, Part};
use crate::read_vector::ReadVector;
use crate::tracing::Tracing;
use std::alloc::Global;
use std::collections::VecDeque;
use std::mem;
use ve_field::Field;
use ve_table::Table;
use ve_vec::Sparse;
use ve_word::Memory;

/// What is read for a beginning.
#[derive(Drop)]
pub(crate) enum StartRead {
    /// The image of a generator.
    Image(Sparse),
    /// The row of a dead id, and its forward.
    Forward { row: Sparse, forward: Sparse },
}

/// A part that is to begin, with the sum of those before it.
#[derive(Drop)]
pub(crate) struct Starting {
    pub(crate) sum: Sparse,
    pub(crate) part: Part,
    pub(crate) parts: VecDeque<Part>,
    pub(crate) read: Option<StartRead>,
}

impl Starting {
    /// Reads what the part begins with.
    pub(crate) fn read(&mut self, alloc: Global, table: &Table) -> Result<(), Memory>
        ensures ok { OnOk result (starting_of self.new ≡ read_hand (opened_state table.now 0) (starting_of self.old)) }
        ensures err { OnErr result (self.new ≡ self.old) }
    {
        self.read = read_beginning(alloc, table, self.part.beginning)?;
        Ok(())
    }

    /// Adds the row that was read to the sum of the parts before, where one was.
    fn add_row(&mut self, field: &Field) -> Result<(), Memory>
        requires sum { IsReduced ◌<◌ field.now self.old.sum }
        requires read { FitsReading field.now (start_of self.old.read) }
        ensures same { self.new ≡ record self.old { sum = self.new.sum } }
        ensures ok { OnOk result (SumsRead field.now self.old.read self.old.sum self.new.sum) }
        ensures err { OnErr result (self.new ≡ self.old) }
    {
        if let Some(read) = &self.read {
            add_read_row(&mut self.sum, field, read)?;
        }
        Ok(())
    }

    /// Begins the part with what was read for it, and `None` where nothing was.
    pub(crate) fn begin(&mut self, alloc: Global, field: &Field) -> Result<Option<Tracing>, Memory>
        requires { FitsHand field.now (starting_of self.old) }
        ensures ok { IfOk result (λ begun. IfSome begun (λ tracing. Applies field.now (starting_of self.old) (tracing_of tracing))) }
        ensures none { IfOk result (λ begun. IfNone begun ((self.new ≡ self.old) × (self.old.read ≡ None))) }
        ensures err { OnErr result (self.new ≡ self.old) }
    {
        self.add_row(field)?;
        let Some(read) = self.read.take() else {
            return Ok(None);
        };
        Ok(Some(Tracing {
            sum: mem::replace(&mut self.sum, Sparse::zero(alloc)),
            coef: self.part.coef,
            parts: mem::replace(&mut self.parts, VecDeque::new(alloc)),
            product: ReadVector::unread(begun_vector(field, read)),
            letters: mem::replace(&mut self.part.letters, VecDeque::new(alloc)),
        }))
    }
}

/// Reads what a part begins with. An id begins by itself.
fn read_beginning(
    alloc: Global,
    table: &Table,
    beginning: Beginning,
) -> Result<Option<StartRead>, Memory>
    ensures { IfOk result (λ read. start_of read ≡ read_for (opened_state table.now 0) (beginning_of beginning)) }
{
    match beginning {
        Beginning::Id(_) => Ok(None),
        Beginning::Image(root) => Ok(Some(StartRead::Image(copy_image(alloc, table, root)?))),
        Beginning::Forward { id, letter } => Ok(Some(StartRead::Forward {
            row: copy_row(alloc, table, id, letter)?,
            forward: copy_stand_in(alloc, table, id)?,
        })),
    }
}

/// Adds the row that was read, where it was of a dead id.
fn add_read_row(sum: &mut Sparse, field: &Field, read: &StartRead) -> Result<(), Memory>
    requires sum { IsReduced ◌<◌ field.now sum.old }
    requires read { FitsReading field.now (start_of (Some read.now)) }
    ensures ok { OnOk result (SumsRead field.now (Some read.now) sum.old sum.new) }
    ensures err { OnErr result (sum.new ≡ sum.old) }
{
    field.has_prime();
    if let StartRead::Forward { row, .. } = read {
        sum.add_scaled(field, 1, row)?;
    }
    Ok(())
}

/// The vector that a part begins with: an image, or the negative of a forward.
fn begun_vector(field: &Field, read: StartRead) -> Sparse
    requires { FitsReading field.now (start_of (Some read)) }
    ensures { BeginsVector field.now read result }
{
    match read {
        StartRead::Image(image) => image,
        StartRead::Forward { mut forward, .. } => {
            forward.scale(field, field.prime() - 1);
            forward
        }
    }
}
