ghost use Rattle.std.specs.Prelude.{◌≡◌, ◌≢◌, ◌<◌, ◌≤◌, ◌⊎◌, IfNone, IfSome, MatchBool, length};
ghost use Rattle.ve_theory.specs.Words.{generator, word_length};
ghost use Rattle.ve_table.specs.Births.{CanCompare, IsBook, IsPrefix, IsShorter, SmallerBirth, product_of, word_in};

use super::Birth;
use crate::Origin;
use crate::entry::Entry;

/// Whether the first of two words is before the second, where none begins the other: its generator is smaller, or its letter
/// where they first differ.
pub(super) fn comes_before(entries: &[Entry], a: Birth, b: Birth) -> bool
    requires book { IsBook entries.now }
    requires words { CanCompare entries.now a b }
    ensures { MatchBool result (SmallerBirth entries.now a b) (SmallerBirth entries.now b a) }
{
    let count = shorter(
        entries[a.parent as usize].length,
        entries[b.parent as usize].length,
    );
    let a = prefix(entries, a, count);
    let b = prefix(entries, b, count);
    differs_below(entries, a, b)
}

fn shorter(a: u32, b: u32) -> u32
    ensures first { result ≤ a }
    ensures second { result ≤ b }
    ensures either { (result ≡ a) ⊎ (result ≡ b) }
{
    if a < b { a } else { b }
}

/// The beginning of the word whose last letter follows `count` letters.
fn prefix(entries: &[Entry], word: Birth, count: u32) -> Birth
    requires book { IsBook entries.now }
    requires parent { word.parent < length entries.now }
    requires long { count ≤ word_length (word_in entries.now word.parent) }
    ensures { IsPrefix entries.now count word result }
{
    let mut word = word;
    while entries[word.parent as usize].length > count {
        let Some(shorter) = without_letter(entries, word) else {
            return word;
        };
        word = shorter;
    }
    word
}

/// The same for two different words of equal length.
fn differs_below(entries: &[Entry], a: Birth, b: Birth) -> bool
    requires book { IsBook entries.now }
    requires first { a.parent < length entries.now }
    requires second { b.parent < length entries.now }
    requires lengths { word_length (word_in entries.now a.parent) ≡ word_length (word_in entries.now b.parent) }
    requires distinct { product_of entries.now a ≢ product_of entries.now b }
    ensures { MatchBool result (SmallerBirth entries.now a b) (SmallerBirth entries.now b a) }
{
    let mut a = a;
    let mut b = b;
    while a.parent != b.parent {
        let Some(shorter_a) = without_letter(entries, a) else {
            return root_of(entries, a.parent) < root_of(entries, b.parent);
        };
        let Some(shorter_b) = without_letter(entries, b) else {
            return false;
        };
        a = shorter_a;
        b = shorter_b;
    }
    a.letter < b.letter
}

/// The parent's word as a birth, where it has a letter.
fn without_letter(entries: &[Entry], word: Birth) -> Option<Birth>
    requires book { IsBook entries.now }
    requires parent { word.parent < length entries.now }
    ensures none { IfNone result (word_length (word_in entries.now word.parent) ≡ 0) }
    ensures some { IfSome result (IsShorter entries.now word) }
{
    match entries[word.parent as usize].origin {
        Origin::Root(_) => None,
        Origin::Child { parent, letter } => Some(Birth { parent, letter }),
    }
}

/// The generator that is an id's word.
fn root_of(entries: &[Entry], id: u32) -> u8
    requires book { IsBook entries.now }
    requires id { id < length entries.now }
    requires root { word_length (word_in entries.now id) ≡ 0 }
    ensures { word_in entries.now id ≡ generator result }
{
    match entries[id as usize].origin {
        Origin::Root(root) => root,
        Origin::Child { .. } => 0,
    }
}
