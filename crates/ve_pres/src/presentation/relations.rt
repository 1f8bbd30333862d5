//! Relations and submodule relations.

ghost use Rattle.std.specs.Prelude.{◌≡◌, ◌≢◌, ◌+◌, ◌<◌, ◌≤◌, [], All, IfErr, IfOk, IsTrue, OnErr, OnOk, length};
ghost use Rattle.ve_theory.specs.Combinations.{IsReduced};
ghost use Rattle.ve_theory.specs.Words.{Shortlex, ShortlexLetters};
ghost use Rattle.ve_theory.specs.Presentations.{HasLetters, IsWord};
ghost use Rattle.ve_theory.specs.Validity.{algebra_cells, cells as cells_of, element_cells, most_cells, most_relations};
ghost use Rattle.ve_pres.specs.Drafts.{IsRelationFault, IsSubmoduleRelationFault, TakesRelation, TakesSubmoduleRelation, with_relator, with_submodule_relation};

use crate::limit::{Limit, PresFault};
use crate::{FreeAlg, FreeMod, Presentation};
use ve_word::Memory;

/// The greatest number of relations and submodule relations together, zero ones among them.
const MOST_RELATIONS: u32 = 4096;

/// The greatest room that relators and submodule relations take together.
const MOST_CELLS: u64 = 8_388_608;

impl Presentation {
    ghost use Rattle.ve_pres.specs.Relations.{IsKeepable, IsKeepableSubmodule, IsRelatorToKeep};

    /// Adds a relation, an element that is to vanish. In a balanced presentation its half is taken. It is counted also where it
    /// is zero, and then dropped.
    pub fn add_relation(&mut self, relator: FreeAlg) -> Result<(), PresFault>
        requires residues { IsReduced ShortlexLetters self.old.presentation.prime relator }
        requires letters { All (λ t. HasLetters self.old.presentation t.0) relator }
        ensures ok { OnOk result (TakesRelation self.old relator self.new) }
        ensures fault { IfErr result (IsRelationFault self.old relator) }
        ensures err { OnErr result (self.new ≡ self.old) }
    {
        if self.counted >= MOST_RELATIONS {
            return Err(PresFault::Limit(Limit::Relations));
        }
        let relator = self.relator_of(relator)?;
        let cells = self.cells + relator.cells();
        if cells > MOST_CELLS {
            return Err(PresFault::Limit(Limit::Cells { cells }));
        }
        self.keep_relator(relator, cells)?;
        Ok(())
    }

    /// Adds a submodule relation, an element of the module that is to vanish. It is counted also where it is zero, and then
    /// dropped.
    pub fn add_sub(&mut self, relation: FreeMod) -> Result<(), PresFault>
        requires residues { IsReduced Shortlex self.old.presentation.prime relation }
        requires words { All (λ t. IsWord self.old.presentation t.0) relation }
        ensures ok { OnOk result (TakesSubmoduleRelation self.old relation self.new) }
        ensures fault { IfErr result (IsSubmoduleRelationFault self.old relation) }
        ensures err { OnErr result (self.new ≡ self.old) }
    {
        if self.counted >= MOST_RELATIONS {
            return Err(PresFault::Limit(Limit::Relations));
        }
        let cells = self.cells + relation.cells();
        if cells > MOST_CELLS {
            return Err(PresFault::Limit(Limit::Cells { cells }));
        }
        self.keep_submodule_relation(relation, cells)?;
        Ok(())
    }

    // The relator of a relation: its half, where the presentation is balanced.
    fn relator_of(&self, element: FreeAlg) -> Result<FreeAlg, Memory>
        requires residues { IsReduced ShortlexLetters self.now.presentation.prime element }
        requires letters { All (λ t. HasLetters self.now.presentation t.0) element }
        ensures { IfOk result (IsRelatorToKeep self.now.presentation element) }
    {
        if self.balanced {
            return self.halved(&element);
        }
        Ok(element)
    }

    // Puts a relator that isn't zero behind the others, and counts it.
    fn keep_relator(&mut self, relator: FreeAlg, cells: u64) -> Result<(), Memory>
        requires relator { IsKeepable self.old.presentation relator }
        requires room { self.old.counted < most_relations }
        requires cells { cells ≡ cells_of self.old.presentation + algebra_cells relator }
        requires within { cells ≤ most_cells }
        ensures ok { OnOk result (self.new ≡ with_relator self.old relator) }
        ensures err { OnErr result (self.new ≡ self.old) }
    {
        if relator.term_count() == 0 {
            self.counted += 1;
            return Ok(());
        }
        let d = self.d.max(relator.weight(&self.letters.weights));
        self.relations.push(relator)?;
        self.d = d;
        self.cells = cells;
        self.counted += 1;
        Ok(())
    }

    // Puts a submodule relation that isn't zero behind the others, and counts it.
    fn keep_submodule_relation(&mut self, relation: FreeMod, cells: u64) -> Result<(), Memory>
        requires relation { IsKeepableSubmodule self.old.presentation relation }
        requires room { self.old.counted < most_relations }
        requires cells { cells ≡ cells_of self.old.presentation + element_cells relation }
        requires within { cells ≤ most_cells }
        ensures ok { OnOk result (self.new ≡ with_submodule_relation self.old relation) }
        ensures err { OnErr result (self.new ≡ self.old) }
    {
        if relation.term_count() == 0 {
            self.counted += 1;
            return Ok(());
        }
        let m = self.m.max(relation.weight(&self.letters.weights));
        self.submodule.push(relation)?;
        self.m = m;
        self.cells = cells;
        self.counted += 1;
        Ok(())
    }
}
