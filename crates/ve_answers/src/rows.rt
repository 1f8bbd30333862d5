//! The lines of rows, and the matrices that they make.

ghost use Rattle.std.specs.Prelude.{◌≡◌, ◌≢◌, ◌↔◌, ℕ, ◌<◌, ◌^◌, List, [], ◌++◌, All, IfOk, IfErr, IfSome, OnOk, IsTrue, MatchOption, codes, decimal, length, map, nat_eq, replicate, slice_index};
ghost use Rattle.ve_theory.specs.Answers.{Row, IsRow};
ghost use Rattle.ve_theory.specs.Combinations.{coefficient};
ghost use Rattle.ve_formats.specs.AnswerReading.{Draft, Place, matrix_places};
ghost use Rattle.ve_answers.specs.Heads.{IsOfHead};
ghost use Rattle.ve_answers.specs.Rows.{IsEntryLine, IsRowLine, IsRowPlace};
ghost use Rattle.ve_answers.specs.Steps.{IsCounted, Leads, Refuses};

use crate::AnswerRefusal;
use crate::head::Head;
use crate::lines::{Lines, decimal};
use crate::words::pieces;
use std::alloc::Global;
use ve_field::Field;
use ve_matrix::Matrix;
use ve_vec::Sparse;
use ve_word::Memory;

/// Reads the matrices: for each letter the line with its name, and a row for each basis word.
pub(crate) fn read_matrices(
    alloc: Global,
    head: &Head,
    lines: &mut Lines,
) -> Result<Vec<Matrix>, AnswerRefusal>
    requires { IsCounted lines.old }
    ensures ok { IfOk result (λ matrices. (draft : Draft) (left : List Place) → IsOfHead head.now draft → Leads (record draft { matrices = [] })
        (matrix_places head.now.dimension (length head.now.names) ++ left) lines.old (record draft { matrices = matrices.items }) left lines.new) }
    ensures counted { OnOk result (IsCounted lines.new) }
    ensures err { IfErr result (λ refusal. (draft : Draft) (left : List Place) → IsOfHead head.now draft → Refuses (record draft { matrices = [] })
        (matrix_places head.now.dimension (length head.now.names) ++ left) lines.old refusal) }
{
    let mut matrices = Vec::new(alloc);
    for letter in 0..head.names.count() {
        if !names_letter(lines.next()?, head.names.name(letter)) {
            return Err(lines.refusal());
        }
        let rows = read_rows(alloc, head, b"row", head.dimension, lines)?;
        matrices.push(Matrix::of_rows(rows))?;
    }
    Ok(matrices)
}

/// Whether the line is the one with this letter's name.
fn names_letter(line: &[u8], name: &str) -> bool
    ensures { IsTrue result ↔ (line.now ≡ codes "letter " ++ name.now) }
{
    match line.strip_prefix(b"letter ") {
        Some(rest) => rest == name.as_bytes(),
        None => false,
    }
}

/// Reads as many rows, each behind a word.
pub(crate) fn read_rows(
    alloc: Global,
    head: &Head,
    word: &[u8],
    count: u32,
    lines: &mut Lines,
) -> Result<Vec<Sparse>, AnswerRefusal>
    requires { IsCounted lines.old }
    ensures ok { IfOk result (λ rows. (place : Place) (with_rows : List Row → Draft) (left : List Place) → IsRowPlace head.now word.now place with_rows
        → Leads (with_rows []) (replicate count place ++ left) lines.old (with_rows rows.items) left lines.new) }
    ensures counted { OnOk result (IsCounted lines.new) }
    ensures count { IfOk result (λ rows. length rows.items ≡ count) }
    ensures few { IfOk result (λ rows. length rows.items < 2 ^ 32) }
    ensures rows { IfOk result (λ rows. All (IsRow head.now.field head.now.dimension) rows.items) }
    ensures err { IfErr result (λ refusal. (place : Place) (with_rows : List Row → Draft) (left : List Place) → IsRowPlace head.now word.now place with_rows
        → Refuses (with_rows []) (replicate count place ++ left) lines.old refusal) }
{
    let mut rows = Vec::new(alloc);
    for _at in 0..count {
        let line = lines.next()?;
        let Some(row) = read_row(alloc, head, word, line)? else {
            return Err(lines.refusal());
        };
        rows.push(row)?;
    }
    Ok(rows)
}

/// The row of a line of this word and a row; `None` for any other line.
fn read_row(alloc: Global, head: &Head, word: &[u8], line: &[u8]) -> Result<Option<Sparse>, Memory>
    ensures { IfOk result (λ found. MatchOption found ((v : Row) → IsRowLine head.now word.now line.now v → ⊥) (IsRowLine head.now word.now line.now)) }
{
    head.field.has_prime();
    let Some(entries) = read_entries(alloc, head, word, line)? else {
        return Ok(None);
    };
    let row = row_of(alloc, &head.field, &entries)?;
    Ok(Some(row))
}

/// The entries of a line of this word and a row; `None` for any other line.
fn read_entries(
    alloc: Global,
    head: &Head,
    word: &[u8],
    line: &[u8],
) -> Result<Option<Vec<u8>>, Memory>
    ensures entries { IfOk result (λ found. MatchOption found ((entries : List ℕ) → IsEntryLine head.now word.now line.now entries → ⊥)
        (λ entries. IsEntryLine head.now word.now line.now entries.items)) }
    ensures few { IfOk result (λ found. IfSome found (λ entries. length entries.items < 2 ^ 32)) }
{
    // Laws by which a text has one list of pieces, and primes are small. They do nothing.
    ve_formats::texts_split_once();
    head.field.has_prime();
    let Some(rest) = line.strip_prefix(word) else {
        return Ok(None);
    };
    let Some(pieces) = pieces(alloc, rest)? else {
        return Ok(None);
    };
    if pieces.len() != head.dimension as usize {
        return Ok(None);
    }
    let Some(entries) = numbers_of(alloc, &pieces, head.field.prime())? else {
        return Ok(None);
    };
    Ok(Some(entries))
}

/// The numbers that pieces are, if each is below `limit`.
fn numbers_of(alloc: Global, pieces: &[&[u8]], limit: u8) -> Result<Option<Vec<u8>>, Memory>
    requires { 0 < limit }
    ensures { IfOk result (λ found. MatchOption found
        ((numbers : List ℕ) → All (λ n. n < limit) numbers → map (λ piece. piece.now) pieces.now ≢ map decimal numbers)
        (λ numbers. All (λ n. n < limit) numbers.items × (map (λ piece. piece.now) pieces.now ≡ map decimal numbers.items))) }
{
    let mut numbers = Vec::new(alloc);
    for piece in pieces {
        let Some(number) = decimal(piece, u64::from(limit - 1)) else {
            return Ok(None);
        };
        numbers.push(number as u8)?;
    }
    Ok(Some(numbers))
}

/// The row of entries, whose terms are added from the last place to the first.
fn row_of(alloc: Global, field: &Field, entries: &[u8]) -> Result<Sparse, Memory>
    requires residues { All (λ entry. entry < field.now) entries.now }
    requires room { length entries.now < 2 ^ 32 }
    ensures row { IfOk result (IsRow field.now (length entries.now)) }
    ensures entries { IfOk result (λ row. (place : ℕ) → coefficient nat_eq row place ≡ slice_index entries.now place) }
{
    field.has_prime();
    let mut row = Sparse::zero(alloc);
    let mut left = entries;
    while let Some((entry, before)) = left.split_last() {
        row.add_scaled(field, *entry, &Sparse::unit(alloc, before.len() as u32))?;
        left = before;
    }
    Ok(row)
}
