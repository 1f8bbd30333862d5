//! The terms of a job.

ghost use Rattle.std.specs.Prelude.{◌≡◌, ◌∷◌, [], IfOk, map};
ghost use Rattle.ve_machine.specs.Hands.{parts_of};
ghost use Rattle.ve_machine.specs.ImageHands.{image_part};
ghost use Rattle.ve_hand.specs.Jobs.{HasRelation, job_of};
ghost use Rattle.ve_hand.specs.Parts.{part_of, parts_at_id, parts_of_images};

use crate::Job;
use std::alloc::Global;
use std::collections::VecDeque;
use ve_pres::{FreeAlg, FreeMod};
use ve_table::Table;
use ve_word::Memory;

/// What a term begins with.
#[derive(Clone, Copy)]
pub(crate) enum Beginning {
    /// An id.
    Id(u32),
    /// The image of a generator.
    Image(u8),
    /// The forward of a dead id, and its row at a letter.
    Forward { id: u32, letter: u8 },
}

/// A term of a job: the letters that follow its beginning, and its coefficient.
#[derive(Drop)]
pub(crate) struct Part {
    pub(crate) beginning: Beginning,
    pub(crate) letters: VecDeque<u8>,
    pub(crate) coef: u8,
}

/// The parts of a job.
pub(crate) fn parts_of_job(alloc: Global, table: &Table, job: Job) -> Result<VecDeque<Part>, Memory>
    requires { HasRelation table.now (job_of job) }
    ensures { IfOk result (λ parts. map part_of parts.items ≡ parts_of table.now (job_of job)) }
{
    let presentation = table.presentation();
    match job {
        Job::Relator { id, number } => parts_from_id(alloc, id, presentation.relator(number)),
        Job::Sub { number } => parts_from_images(alloc, presentation.sub(number)),
        Job::Image { id, letter } => image_parts(alloc, id, letter),
    }
}

/// The terms of a relator at an id.
fn parts_from_id(alloc: Global, id: u32, relator: &FreeAlg) -> Result<VecDeque<Part>, Memory>
    ensures { IfOk result (λ parts. map part_of parts.items ≡ parts_at_id id relator.now) }
{
    let mut parts = VecDeque::new(alloc);
    for at in 0..relator.term_count() {
        parts.push_back(Part {
            beginning: Beginning::Id(id),
            letters: queue_of(alloc, relator.word_at(at))?,
            coef: relator.coef_at(at),
        })?;
    }
    Ok(parts)
}

/// The terms of a submodule relation.
fn parts_from_images(alloc: Global, relation: &FreeMod) -> Result<VecDeque<Part>, Memory>
    ensures { IfOk result (λ parts. map part_of parts.items ≡ parts_of_images relation.now) }
{
    let mut parts = VecDeque::new(alloc);
    for at in 0..relation.term_count() {
        let word = relation.word_at(at);
        parts.push_back(Part {
            beginning: Beginning::Image(word.root_of()),
            letters: queue_of(alloc, word.spelling())?,
            coef: relation.coef_at(at),
        })?;
    }
    Ok(parts)
}

/// The letters in a list that gives its first one away.
fn queue_of(alloc: Global, letters: &[u8]) -> Result<VecDeque<u8>, Memory>
    ensures { IfOk result (λ queue. queue.items ≡ letters.now) }
{
    Ok(VecDeque::from_vec(Vec::from_slice(alloc, letters)?))
}

/// The one term of an image job.
fn image_parts(alloc: Global, id: u32, letter: u8) -> Result<VecDeque<Part>, Memory>
    ensures { IfOk result (λ parts. map part_of parts.items ≡ image_part id letter ∷ []) }
{
    let mut letters = VecDeque::new(alloc);
    letters.push_back(letter)?;
    let mut parts = VecDeque::new(alloc);
    parts.push_back(Part {
        beginning: Beginning::Forward { id, letter },
        letters,
        coef: 1,
    })?;
    Ok(parts)
}
