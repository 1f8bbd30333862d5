//! Words, their order and their texts, and the names of letters.

ghost use Rattle.std.specs.Prelude.{◌<◌, ◌↔◌, All, IsTrue};
ghost use Rattle.ve_theory.specs.Words.{letters};

mod names;
mod order;
mod text;

use std::alloc::Global;
use ve_word::{Memory, Word};

fn word_of(alloc: Global, root: u8, letters: &[u8]) -> Result<Word, Memory> {
    let mut word = Word::root(alloc, root);
    for &letter in letters {
        word.push(letter)?;
    }
    Ok(word)
}

// Whether all letters are below a bound.
fn is_below(word: &Word, bound: usize) -> bool
    ensures { IsTrue result ↔ All (λ letter. letter < bound) (letters word.now) }
{
    word.spelling()
        .iter()
        .all(|&letter| usize::from(letter) < bound)
}
