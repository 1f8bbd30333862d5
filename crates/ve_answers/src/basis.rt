//! The lines of the basis words.

ghost use Rattle.std.specs.Prelude.{◌≡◌, ◌≢◌, ℕ, ◌+◌, ◌<◌, ◌≤◌, ◌^◌, List, [], ◌∷◌, ◌++◌, All, IfOk, IfErr, OnOk, MatchOption, Some, length, nat_eq, not, replicate, slice_get};
ghost use Rattle.std.specs.List.{suffix_len};
ghost use Rattle.ve_theory.specs.Words.{Word, generator};
ghost use Rattle.ve_formats.specs.AnswerReading as places;
ghost use Rattle.ve_formats.specs.AnswerReading.{Place};
ghost use Rattle.ve_formats.specs.Pieces.{IsWritten, Lacks};
ghost use Rattle.ve_formats.specs.WordText.{word_text};
ghost use Rattle.ve_matrix.specs.Answers.{NameEarlierPlaces};
ghost use Rattle.ve_table.specs.Books.{words_of};
ghost use Rattle.ve_table.specs.declared.origin.Origin.TheVariants.{Root, Child};
ghost use Rattle.ve_answers.specs.Basis.{IsBasisLine, IsBasisOrigin, IsNextOrigin, IsNextWord, texts_of};
ghost use Rattle.ve_answers.specs.Heads.{IsHead, draft_of};
ghost use Rattle.ve_answers.specs.Steps.{IsCounted, Leads, Refuses};

use crate::AnswerRefusal;
use crate::head::Head;
use crate::lines::{Lines, decimal};
use crate::texts::Texts;
use crate::words::name_of;
use std::alloc::Global;
use ve_table::Origin;
use ve_word::Memory;

/// Reads the basis. The texts of its words tell their places.
pub(crate) fn read_basis(
    alloc: Global,
    head: &Head,
    lines: &mut Lines,
) -> Result<Vec<Origin>, AnswerRefusal>
    requires counted { IsCounted lines.old }
    requires head { IsHead head.now }
    ensures ok { IfOk result (λ basis. (left : List Place) → Leads (draft_of head.now) (replicate head.now.dimension places.word ++ left) lines.old
        (record (draft_of head.now) { basis = words_of basis.items }) left lines.new) }
    ensures counted { OnOk result (IsCounted lines.new) }
    ensures origins { IfOk result (λ basis. NameEarlierPlaces basis.items) }
    ensures err { IfErr result (λ refusal. (left : List Place) → Refuses (draft_of head.now) (replicate head.now.dimension places.word ++ left) lines.old refusal) }
{
    let mut basis = Vec::new(alloc);
    let mut texts = Texts::new(alloc);
    for _place in 0..head.dimension {
        let line = lines.next()?;
        let Some(origin) = next_origin(head, &mut texts, line)? else {
            return Err(lines.refusal());
        };
        basis.push(origin)?;
    }
    Ok(basis)
}

/// Where the word of a line comes from, which isn't among the words so far; `None` for any other line.
fn next_origin<'a>(
    head: &Head,
    texts: &mut Texts<'a>,
    line: &'a [u8],
) -> Result<Option<Origin>, Memory>
    requires head { IsHead head.now }
    requires places { length texts.old < 2 ^ 32 }
    ensures { IfOk result (λ found. (words : List Word) → texts.old ≡ texts_of head.now words → All (IsWritten head.now.names) words
        → MatchOption found ((w : Word) → IsBasisLine head.now words line.now w → ⊥) (IsBasisOrigin head.now words line.now texts.new)) }
{
    // A law by which texts of different words differ. It does nothing.
    ve_formats::texts_split_once();
    let Some(text) = line.strip_prefix(b"basis ") else {
        return Ok(None);
    };
    let Some(origin) = origin_of(head, texts, text) else {
        return Ok(None);
    };
    if !texts.add(text)? {
        return Ok(None);
    }
    Ok(Some(origin))
}

/// Where a word comes from: it is a generator, or an earlier word times a letter.
fn origin_of(head: &Head, texts: &Texts, text: &[u8]) -> Option<Origin>
    requires head { IsHead head.now }
    requires places { length texts.now < 2 ^ 32 }
    ensures { (words : List Word) → texts.now ≡ texts_of head.now words
        → MatchOption result ((w : Word) → IsNextWord head.now words text.now w → ⊥) (IsNextOrigin head.now words text.now) }
{
    // A law by which a text has one last star. It does nothing.
    ve_formats::texts_split_once();
    match split_star(text) {
        Some((parent, name)) => child_of(head, texts, parent, name),
        None => root_of(head, text),
    }
}

/// The origin of a generator, by its text.
fn root_of(head: &Head, text: &[u8]) -> Option<Origin>
    requires { IsHead head.now }
    ensures { MatchOption result ((i : ℕ) → i < head.now.roots → text.now ≢ word_text head.now.names (generator i))
        (λ origin. (i : ℕ) × (i < head.now.roots) × (origin ≡ Root i) × (text.now ≡ word_text head.now.names (generator i))) }
{
    let number = decimal(text.strip_prefix(b"e")?, u64::from(head.roots))?;
    let root = number.checked_sub(1)?;
    Some(Origin::Root(root as u8))
}

/// The origin of an earlier word times a letter, by the word's text and the letter's name.
fn child_of(head: &Head, texts: &Texts, parent: &[u8], name: &[u8]) -> Option<Origin>
    requires head { IsHead head.now }
    requires places { length texts.now < 2 ^ 32 }
    ensures { MatchOption result ((at x : ℕ) → slice_get texts.now at ≡ Some parent.now → slice_get head.now.names x ≢ Some name.now)
        (λ origin. (at : ℕ) × (x : ℕ) × (origin ≡ Child at x) × (slice_get texts.now at ≡ Some parent.now) × (slice_get head.now.names x ≡ Some name.now)) }
{
    let place = texts.find(parent)?;
    let letter = head.names.find(name_of(name)?)?;
    Some(Origin::Child {
        parent: place as u32,
        letter,
    })
}

/// What stands before and behind the last star.
fn split_star(text: &[u8]) -> Option<(&[u8], &[u8])>
    ensures { MatchOption result (Lacks 42 text.now) (λ cut. (text.now ≡ cut.0.now ++ 42 ∷ cut.1.now) × Lacks 42 cut.1.now) }
{
    let (front, behind) = text.split_at(text.len() - length_behind_star(text));
    Some((front.strip_suffix(b"*")?, behind))
}

/// How many bytes stand behind the last star; all of them where there is none.
fn length_behind_star(text: &[u8]) -> usize
    ensures { result ≡ suffix_len (λ b. not (nat_eq b 42)) text.now }
{
    text.iter().rev().take_while(|byte| **byte != b'*').count()
}
