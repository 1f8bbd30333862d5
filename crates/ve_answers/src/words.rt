//! Pieces of lines, each behind a space.

ghost use Rattle.std.specs.Prelude.{◌≡◌, ◌≢◌, ℕ, List, [], ◌∷◌, ◌++◌, All, IfOk, IsTrue, IsFalse, MatchOption, map, nat_eq, not};
ghost use Rattle.std.specs.List.{list_all, prefix_len};
ghost use Rattle.ve_theory.specs.Validity.{is_name, is_name_letter};
ghost use Rattle.ve_formats.specs.Tokens.{is_name_part};
ghost use Rattle.ve_formats.specs.Lines.{each_after_space};
ghost use Rattle.ve_formats.specs.Pieces.{IsCutBy, Lacks};

use crate::lines::behind_space;
use std::alloc::Global;
use std::str;
use ve_word::Memory;

/// The text of bytes that have the form of a name.
pub(crate) fn name_of(bytes: &[u8]) -> Option<&str>
    ensures { MatchOption result (IsFalse (is_name bytes.now))
        (λ name. (name.now ≡ bytes.now) × IsTrue (is_name bytes.now)) }
{
    if !is_name(bytes) {
        return None;
    }
    str::from_utf8(bytes).ok()
}

/// Whether the bytes have the form of a name.
fn is_name(bytes: &[u8]) -> bool
    ensures { result ≡ is_name bytes.now }
{
    match bytes.split_first() {
        Some((first, rest)) => is_name_letter(*first) && are_name_parts(rest),
        None => false,
    }
}

fn are_name_parts(bytes: &[u8]) -> bool
    ensures { result ≡ list_all is_name_part bytes.now }
{
    bytes.iter().all(|byte| is_name_part(*byte))
}

fn is_name_letter(byte: u8) -> bool
    ensures { result ≡ is_name_letter byte }
{
    matches!(byte, b'A'..=b'Z' | b'a'..=b'z' | b'_')
}

fn is_name_part(byte: u8) -> bool
    ensures { result ≡ is_name_part byte }
{
    is_name_letter(byte) || byte.is_ascii_digit()
}

/// The pieces of a text, each behind a space; `None` where the text begins with another byte.
pub(crate) fn pieces(alloc: Global, text: &[u8]) -> Result<Option<Vec<&[u8]>>, Memory>
    ensures { IfOk result (λ found. MatchOption found ((pieces : List (List ℕ)) → text.now ≢ each_after_space pieces)
        (λ pieces. (text.now ≡ each_after_space (map (λ piece. piece.now) pieces.items))
        × All (Lacks 32) (map (λ piece. piece.now) pieces.items))) }
{
    let mut pieces = Vec::new(alloc);
    let mut rest = text;
    while let Some((piece, behind)) = next_piece(rest) {
        pieces.push(piece)?;
        rest = behind;
    }
    if rest.is_empty() {
        return Ok(Some(pieces));
    }
    Ok(None)
}

/// The first piece of a text of pieces, and what is behind it. The text begins with a space.
pub(crate) fn next_piece(text: &[u8]) -> Option<(&[u8], &[u8])>
    ensures { MatchOption result ((rest : List ℕ) → text.now ≢ 32 ∷ rest)
        (λ cut. (text.now ≡ 32 ∷ cut.0.now ++ cut.1.now) × Lacks 32 cut.0.now × IsCutBy 32 cut.1.now) }
{
    let behind = behind_space(text)?;
    Some(behind.split_at(length_to_space(behind)))
}

/// How many bytes stand before the first space.
fn length_to_space(text: &[u8]) -> usize
    ensures { result ≡ prefix_len (λ b. not (nat_eq b 32)) text.now }
{
    text.iter().take_while(|byte| **byte != b' ').count()
}
