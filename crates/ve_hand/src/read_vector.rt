ghost use Rattle.std.specs.Prelude.{◌≡◌, ◌<◌, ◌↔◌, ℕ, List, IfOk, IsTrue, None, OnErr, OnOk, slice_get};
ghost use Rattle.ve_theory.specs.Combinations.{IsReduced};
ghost use Rattle.ve_machine.specs.Seats.{opened_state};
ghost use Rattle.ve_machine.specs.Hands.{read_ids};
ghost use Rattle.ve_machine.specs.HandSteps.{found_for};
ghost use Rattle.ve_machine.specs.Allowed.{HasReadForwards, HasReadRows};
ghost use Rattle.ve_hand.specs.Fits.{FitsReading};
ghost use Rattle.ve_hand.specs.Outcomes.{MultipliesVector, RepairsVector};
ghost use Rattle.ve_hand.specs.Views.{reading_of};

use crate::found::{Found, has_forwards, has_rows_alone, look_up};
use crate::sums::{multiplied_sum, repaired_sum};
use std::alloc::Global;
use ve_field::Field;
use ve_table::Table;
use ve_vec::Sparse;
use ve_word::Memory;

/// A vector, and what was last read for its ids.
#[derive(Drop)]
pub(crate) struct ReadVector {
    pub(crate) vector: Sparse,
    // For each id of the vector, unless nothing was read since it changed.
    pub(crate) founds: Option<Vec<Found>>,
}

impl ReadVector {
    /// A vector for which nothing was read.
    pub(crate) fn unread(vector: Sparse) -> ReadVector
        ensures vector { result.vector ≡ vector }
        ensures unread { result.founds ≡ None }
    {
        ReadVector {
            vector,
            founds: None,
        }
    }

    /// Reads for each id, with the letter that is next.
    pub(crate) fn read(
        &mut self,
        alloc: Global,
        table: &Table,
        letter: Option<u8>,
    ) -> Result<(), Memory>
        ensures vector { self.new.vector ≡ self.old.vector }
        ensures ok { OnOk result ((left : List ℕ) → slice_get left 0 ≡ letter
            → reading_of self.new ≡ read_ids (found_for (opened_state table.now 0) left self.old.vector)) }
        ensures err { OnErr result (self.new ≡ self.old) }
    {
        self.founds = Some(look_up(alloc, table, &self.vector, letter)?);
        Ok(())
    }

    /// Whether some id was found dead.
    pub(crate) fn has_forwards(&self) -> bool
        ensures { IsTrue result ↔ HasReadForwards (reading_of self.now) }
    {
        match &self.founds {
            Some(founds) => has_forwards(founds),
            None => false,
        }
    }

    /// Whether a row was read for each id.
    pub(crate) fn has_rows(&self) -> bool
        ensures { IsTrue result ↔ HasReadRows (reading_of self.now) }
    {
        match &self.founds {
            Some(founds) => has_rows_alone(founds),
            None => false,
        }
    }

    /// Puts the forwards that were read in their ids' places. Whether there were any.
    pub(crate) fn repair(&mut self, alloc: Global, field: &Field) -> Result<bool, Memory>
        requires vector { IsReduced ◌<◌ field.now self.old.vector }
        requires founds { FitsReading field.now (reading_of self.old) }
        ensures ok { IfOk result (λ had. RepairsVector field.now self.old had self.new) }
        ensures err { OnErr result (self.new ≡ self.old) }
    {
        let Some(founds) = &self.founds else {
            return Ok(false);
        };
        if !has_forwards(founds) {
            return Ok(false);
        }
        let repaired = repaired_sum(alloc, field, founds, &self.vector)?;
        *self = ReadVector::unread(repaired);
        Ok(true)
    }

    /// Sums the rows that were read, each times its id's coefficient. Whether each id had one.
    pub(crate) fn multiply(&mut self, alloc: Global, field: &Field) -> Result<bool, Memory>
        requires vector { IsReduced ◌<◌ field.now self.old.vector }
        requires founds { FitsReading field.now (reading_of self.old) }
        ensures ok { IfOk result (λ had. MultipliesVector field.now self.old had self.new) }
        ensures err { OnErr result (self.new ≡ self.old) }
    {
        let Some(founds) = &self.founds else {
            return Ok(false);
        };
        if !has_rows_alone(founds) {
            return Ok(false);
        }
        let product = multiplied_sum(alloc, field, founds, &self.vector)?;
        *self = ReadVector::unread(product);
        Ok(true)
    }
}
