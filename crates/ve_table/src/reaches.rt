//! The reaches of relations, which are worked out once.

ghost use Rattle.std.specs.Prelude.{◌≡◌, IfOk, map};
ghost use Rattle.ve_theory.specs.Presentations.{element_reach, relator_reach, relators};
ghost use Rattle.ve_table.specs.Reaches.{AreReaches};

use std::alloc::Global;
use ve_pres::Presentation;
use ve_word::Memory;

/// The reach of each relator and of each submodule relation, by their numbers.
#[derive(Drop)]
pub(crate) struct Reaches {
    pub(crate) relators: Vec<u32>,
    pub(crate) submodule: Vec<u32>,
}

impl Reaches {
    pub(crate) fn of(alloc: Global, presentation: &Presentation) -> Result<Reaches, Memory>
        ensures { IfOk result (AreReaches presentation.now.presentation) }
    {
        presentation.is_valid();
        Ok(Reaches {
            relators: relator_reaches(alloc, presentation)?,
            submodule: submodule_reaches(alloc, presentation)?,
        })
    }

    /// The same reaches once more.
    pub(crate) fn copy(&self) -> Result<Reaches, Memory>
        ensures relators { IfOk result (λ r. r.relators.items ≡ self.now.relators.items) }
        ensures submodule { IfOk result (λ r. r.submodule.items ≡ self.now.submodule.items) }
    {
        let alloc = *self.relators.allocator();
        Ok(Reaches {
            relators: Vec::from_slice(alloc, &self.relators)?,
            submodule: Vec::from_slice(alloc, &self.submodule)?,
        })
    }
}

fn relator_reaches(alloc: Global, presentation: &Presentation) -> Result<Vec<u32>, Memory>
    ensures { IfOk result (λ reaches. reaches.items ≡ map (relator_reach presentation.now.presentation) (relators presentation.now.presentation)) }
{
    presentation.is_valid();
    let mut reaches = Vec::with_capacity(alloc, presentation.relator_count() as usize)?;
    for number in 0..presentation.relator_count() {
        let reach = presentation.relator(number).weight(presentation.weights());
        reaches.push(reach)?;
    }
    Ok(reaches)
}

fn submodule_reaches(alloc: Global, presentation: &Presentation) -> Result<Vec<u32>, Memory>
    ensures { IfOk result (λ reaches. reaches.items ≡ map (element_reach presentation.now.presentation) presentation.now.presentation.submodule) }
{
    presentation.is_valid();
    let mut reaches = Vec::with_capacity(alloc, presentation.sub_count() as usize)?;
    for number in 0..presentation.sub_count() {
        let reach = presentation.sub(number).weight(presentation.weights());
        reaches.push(reach)?;
    }
    Ok(reaches)
}
