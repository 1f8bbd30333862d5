//! The words of a basis.

ghost use Rattle.std.specs.Prelude.{◌≡◌, ◌<◌, [], IfOk, length, slice_index_or, reverse};
ghost use Rattle.ve_theory.specs.Words.{generator, times_all};
ghost use Rattle.ve_table.specs.Books.{words_of};
ghost use Rattle.ve_matrix.specs.Answers.{NameEarlierPlaces};

use std::alloc::Global;
use ve_table::Origin;
use ve_word::{Memory, Word};

/// The word of a place.
pub(crate) fn word_at(alloc: Global, basis: &[Origin], place: usize) -> Result<Word, Memory>
    requires origins { NameEarlierPlaces basis.now }
    requires place { place < length basis.now }
    ensures { IfOk result (λ word. word ≡ slice_index_or (words_of basis.now) place (generator 0)) }
{
    let mut letters = Vec::new(alloc);
    let root = climb(basis, place, &mut letters)?;
    let mut word = Word::root(alloc, root);
    while let Some(letter) = letters.pop() {
        word.push(letter)?;
    }
    Ok(word)
}

/// The generator that the word of a place begins with, and its letters from the last to the first.
fn climb(basis: &[Origin], place: usize, letters: &mut Vec<u8>) -> Result<u8, Memory>
    requires origins { NameEarlierPlaces basis.now }
    requires place { place < length basis.now }
    requires letters { letters.old.items ≡ [] }
    ensures { IfOk result (λ root. times_all (generator root) (reverse letters.new.items) ≡ slice_index_or (words_of basis.now) place (generator 0)) }
{
    let mut at = place;
    loop {
        match basis[at] {
            Origin::Root(root) => return Ok(root),
            Origin::Child { parent, letter } => {
                letters.push(letter)?;
                at = parent as usize;
            }
        }
    }
}
