//! Image jobs of dead ids.

ghost use Rattle.std.specs.Prelude.{◌≡◌, ◌<◌, [], ℕ, IsSome, OnOk};
ghost use Rattle.ve_table.specs.Tables.{ActionTable, IsDead, IsDue, row_at};
ghost use Rattle.ve_machine.specs.Forwards.{IsForwarding};
ghost use Rattle.ve_machine.specs.Jobs.{image_value};
ghost use Rattle.ve_plain.specs.Working.{Continues, HasImages, IsAtWork};

use crate::work::Work;
use ve_machine::work::tracing_is_known;
use ve_settle::image_of;
use ve_theory::order::reaches_are_bounded;
use ve_word::Memory;

impl Work {
    ghost use Rattle.ve_plain.specs.Works.{Lasts, OnlyDeadWait, Settles};

    /// Does the image jobs of all ids that wait, the last first, and of those that die of it.
    pub(crate) fn settle(&mut self) -> Result<(), Memory>
        requires { OnlyDeadWait self.old }
        ensures continues { Continues self.old.table self.new.table }
        ensures ok { OnOk result (Settles self.old self.new) }
    {
        self.table.is_sound();
        while let Some(id) = self.waiting.pop() {
            self.do_images(id)?;
        }
        Ok(())
    }

    /// Does the image jobs of a dead id, letter by letter.
    fn do_images(&mut self, id: u32) -> Result<(), Memory>
        requires { IsDead self.old.table id }
        ensures continues { Continues self.old.table self.new.table }
        ensures lasts { OnOk result (Lasts self.old self.new) }
        ensures done { OnOk result ((O : ActionTable) → IsAtWork O self.old.table → HasImages O self.new.table.forwards id) }
    {
        reaches_are_bounded();
        self.table.is_sound();
        // A word that reaches the level has no products within it.
        if self.table.reach(id) == self.table.level() {
            return Ok(());
        }
        for letter in 0..self.table.presentation().names().count() {
            if self.table.has_row(id, letter) {
                self.do_image(id, letter)?;
            }
        }
        Ok(())
    }

    /// Does one image job.
    fn do_image(&mut self, id: u32, letter: u8) -> Result<(), Memory>
        requires dead { IsDead self.old.table id }
        requires row { IsSome (row_at self.old.table id letter) }
        ensures continues { Continues self.old.table self.new.table }
        ensures lasts { OnOk result (Lasts self.old self.new) }
        ensures done { OnOk result ((O : ActionTable) → IsAtWork O self.old.table
            → IsForwarding O.draft.presentation.prime self.new.table.forwards (image_value O self.new.table.forwards id letter)) }
    {
        tracing_is_known();
        self.table.is_sound();
        let image = image_of(self.alloc, &self.table, id, letter)?;
        self.impose(image)?;
        Ok(())
    }
}
