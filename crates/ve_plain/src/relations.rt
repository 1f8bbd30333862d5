//! Relator jobs, and jobs of submodule relations.

ghost use Rattle.std.specs.Prelude.{◌≡◌, ◌<◌, ◌≤◌, [], ℕ, OnOk, length};
ghost use Rattle.ve_theory.specs.Presentations.{due, element_reach, relator, relators, submodule_relation};
ghost use Rattle.ve_table.specs.Tables.{ActionTable, IsId, presented, reach_at, word_at};
ghost use Rattle.ve_machine.specs.Known.{Known};
ghost use Rattle.ve_machine.specs.Jobs.{relator_value, submodule_value};
ghost use Rattle.ve_plain.specs.Due.{due_numbers};
ghost use Rattle.ve_plain.specs.Working.{Continues, IsAtWork, KnowsRelators, KnowsSubmodule};

use crate::due::put_due;
use crate::ids::first_due;
use crate::tracing::{traced_relator, traced_submodule_relation};
use crate::work::Work;
use ve_machine::work::tracing_is_known;
use ve_word::Memory;

impl Work {
    ghost use Rattle.ve_plain.specs.Works.{Settles};

    /// Does the jobs of all submodule relations.
    pub(crate) fn submodule_relations(&mut self) -> Result<(), Memory>
        requires { self.old.waiting.items ≡ [] }
        ensures continues { Continues self.old.table self.new.table }
        ensures settles { OnOk result (Settles self.old self.new) }
        ensures done { OnOk result ((O : ActionTable) → IsAtWork O self.old.table
            → (number : ℕ) → number < length (presented O).submodule → KnowsSubmodule O self.new.table.forwards number) }
    {
        self.table.is_sound();
        for number in 0..self.table.presentation().sub_count() {
            if self.table.due_sub(number) == u64::from(self.table.level()) {
                self.submodule_relation(number)?;
            }
        }
        Ok(())
    }

    /// Does the relator jobs of all ids. Those of one id go along the same rows.
    pub(crate) fn relators(&mut self) -> Result<(), Memory>
        requires { self.old.waiting.items ≡ [] }
        ensures continues { Continues self.old.table self.new.table }
        ensures settles { OnOk result (Settles self.old self.new) }
        ensures done { OnOk result ((O : ActionTable) → IsAtWork O self.old.table → (b : ℕ) → KnowsRelators O self.new.table.forwards b) }
    {
        self.table.is_sound();
        let mut numbers = Vec::new(self.alloc);
        let mut reach = None;
        for id in first_due(&self.table)..self.table.id_count() {
            // Ids stand by rising reach, so each list is made once.
            let here = self.table.reach(id);
            if reach != Some(here) {
                put_due(&self.table, id, &mut numbers)?;
                reach = Some(here);
            }
            self.relators_at(id, &numbers)?;
        }
        Ok(())
    }

    /// Does the jobs of an id and the relators that are due at it, as long as it is live.
    fn relators_at(&mut self, id: u32, numbers: &[u32]) -> Result<(), Memory>
        requires id { IsId self.old.table id }
        requires numbers { numbers.now ≡ due_numbers (presented self.old.table) self.old.table.level (reach_at self.old.table id) }
        requires idle { self.old.waiting.items ≡ [] }
        ensures continues { Continues self.old.table self.new.table }
        ensures settles { OnOk result (Settles self.old self.new) }
        ensures done { OnOk result ((O : ActionTable) → IsAtWork O self.old.table → KnowsRelators O self.new.table.forwards id) }
    {
        self.table.is_sound();
        for number in numbers {
            if !self.table.is_live(id) {
                return Ok(());
            }
            self.relator(id, *number)?;
        }
        Ok(())
    }

    /// Traces a relator at an id, deletes what comes of it, and does the image jobs of the ids that die.
    fn relator(&mut self, id: u32, number: u32) -> Result<(), Memory>
        requires id { IsId self.old.table id }
        requires number { number < length (relators (presented self.old.table)) }
        requires due { due (presented self.old.table) (word_at self.old.table id) (relator (presented self.old.table) number) ≤ self.old.table.level }
        requires idle { self.old.waiting.items ≡ [] }
        ensures continues { Continues self.old.table self.new.table }
        ensures settles { OnOk result (Settles self.old self.new) }
        ensures done { OnOk result ((O : ActionTable) → IsAtWork O self.old.table → Known O self.new.table.forwards (relator_value O id number)) }
    {
        tracing_is_known();
        self.table.is_sound();
        let vector = traced_relator(self.alloc, &self.table, id, number)?;
        self.impose(vector)?;
        self.settle()?;
        Ok(())
    }

    /// Traces a submodule relation, deletes what comes of it, and does the image jobs of the ids that die.
    fn submodule_relation(&mut self, number: u32) -> Result<(), Memory>
        requires number { number < length (presented self.old.table).submodule }
        requires due { element_reach (presented self.old.table) (submodule_relation (presented self.old.table) number) ≤ self.old.table.level }
        requires idle { self.old.waiting.items ≡ [] }
        ensures continues { Continues self.old.table self.new.table }
        ensures settles { OnOk result (Settles self.old self.new) }
        ensures done { OnOk result ((O : ActionTable) → IsAtWork O self.old.table → Known O self.new.table.forwards (submodule_value O number)) }
    {
        tracing_is_known();
        self.table.is_sound();
        let vector = traced_submodule_relation(self.alloc, &self.table, number)?;
        self.impose(vector)?;
        self.settle()?;
        Ok(())
    }
}
