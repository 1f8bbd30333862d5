//! The words of the basis.

ghost use Rattle.std.specs.Prelude.{◌≡◌, ◌<◌, IfOk, length};
ghost use Rattle.ve_theory.specs.Words.{generator};
ghost use Rattle.ve_theory.specs.Answers.{basis_word};
ghost use Rattle.ve_matrix.specs.Answers.{IsAnswerValue, answer_of};
ghost use Rattle.ve_matrix.specs.BasisWords.{behind};

use crate::Answer;
use std::alloc::Global;
use ve_table::Origin;
use ve_word::{Memory, Word};

impl Answer {
    /// The word of a place of the basis.
    pub fn basis_word(&self, place: u32) -> Result<Word, Memory>
        requires answer { IsAnswerValue self.now }
        requires place { place < length self.now.basis.items }
        ensures { IfOk result (λ word. word ≡ basis_word (answer_of self.now).action place) }
    {
        let alloc = *self.basis.allocator();
        let mut letters = Vec::new(alloc);
        let mut at = place;
        loop {
            match self.basis[at as usize] {
                Origin::Root(root) => return spelled(alloc, root, letters),
                Origin::Child { parent, letter } => {
                    letters.push(letter)?;
                    at = parent;
                }
            }
        }
    }
}

/// A generator times letters, of which the last one comes first.
fn spelled(alloc: Global, root: u8, mut letters: Vec<u8>) -> Result<Word, Memory>
    ensures { IfOk result (λ word. word ≡ behind (generator root) letters.items) }
{
    let mut word = Word::root(alloc, root);
    while let Some(letter) = letters.pop() {
        word.push(letter)?;
    }
    Ok(word)
}
