//! Writing an answer, line by line.

ghost use Rattle.std.specs.Prelude.{◌≡◌, ℕ, ◌<◌, ◌^◌, ◌++◌, All, IfOk, codes, length, map};
ghost use Rattle.ve_theory.specs.Answers.{IsRow};
ghost use Rattle.ve_formats.specs.AnswerText.{answer_text, basis_lines, head_lines, image_lines, letter_lines, matrix_lines, row_entries, row_line};
ghost use Rattle.ve_formats.specs.Lines.{each_after_space, line_text, text_of_lines};
ghost use Rattle.ve_matrix.specs.Answers.{IsAnswerValue, answer_of};
ghost use Rattle.ve_port.specs.Writing.{Writes};
ghost use Rattle.ve_out.specs.Parts.{basis_line, zero_entries};

use crate::basis::word_at;
use crate::numbered::write_numbered;
use crate::row::{append_entries, zero_entries};
use std::alloc::Global;
use ve_lines::{append, put};
use ve_matrix::{Answer, Matrix};
use ve_port::{OutFault, Sink};
use ve_vec::Sparse;
use ve_word::{Memory, Names, write_word};

/// Writes the text of an answer. One put holds one line with its line feed.
///
/// The answer is `Sink` where a put failed, `Memory` where there was no room for a line. What is written by then is a part of
/// the text from its front.
pub fn write_answer<K: Sink>(alloc: Global, answer: &Answer, out: &mut K) -> Result<(), OutFault>
    requires { IsAnswerValue answer.now }
    ensures { Writes (K.output out.old) (K.output out.new) (answer_text (answer_of answer.now)) result }
{
    let mut line = Vec::new(alloc);
    let zeros = zero_entries(alloc, answer.basis.len())?;
    write_head(&mut line, answer, out)?;
    write_basis(alloc, &mut line, answer, out)?;
    write_images(&mut line, answer, &zeros, out)?;
    write_matrices(&mut line, answer, &zeros, out)?;
    put(b"end\n", out)
}

/// Writes the lines before those of the basis.
fn write_head<K: Sink>(line: &mut Vec<u8>, answer: &Answer, out: &mut K) -> Result<(), OutFault>
    requires { IsAnswerValue answer.now }
    ensures { Writes (K.output out.old) (K.output out.new) (text_of_lines (head_lines (answer_of answer.now))) result }
{
    put(b"venum-answer 1\n", out)?;
    write_numbered(line, b"prime", u64::from(answer.field.prime()), out)?;
    write_names(line, &answer.names, out)?;
    write_numbered(line, b"module", u64::from(answer.roots), out)?;
    write_numbered(line, b"closed", u64::from(answer.closed), out)?;
    write_numbered(line, b"dimension", answer.basis.len() as u64, out)
}

/// Writes the line of the names.
fn write_names<K: Sink>(line: &mut Vec<u8>, names: &Names, out: &mut K) -> Result<(), OutFault>
    ensures { Writes (K.output out.old) (K.output out.new) (line_text (codes "letters" ++ each_after_space names.now)) result }
{
    line.clear();
    append_names(line, names)?;
    put(line, out)
}

/// Appends the line of the names.
fn append_names(line: &mut Vec<u8>, names: &Names) -> Result<(), Memory>
    ensures { IfOk result (λ _. line.new.items ≡ line.old.items ++ line_text (codes "letters" ++ each_after_space names.now)) }
{
    append(line, b"letters")?;
    for letter in 0..names.count() {
        append(line, b" ")?;
        append(line, names.name(letter).as_bytes())?;
    }
    append(line, b"\n")
}

/// Writes the lines of the basis words.
fn write_basis<K: Sink>(
    alloc: Global,
    line: &mut Vec<u8>,
    answer: &Answer,
    out: &mut K,
) -> Result<(), OutFault>
    requires { IsAnswerValue answer.now }
    ensures { Writes (K.output out.old) (K.output out.new) (text_of_lines (basis_lines (answer_of answer.now))) result }
{
    for place in 0..answer.basis.len() {
        line.clear();
        append_basis_line(alloc, line, answer, place)?;
        put(line, out)?;
    }
    Ok(())
}

/// Appends the line of a basis word.
fn append_basis_line(
    alloc: Global,
    line: &mut Vec<u8>,
    answer: &Answer,
    place: usize,
) -> Result<(), Memory>
    requires answer { IsAnswerValue answer.now }
    requires place { place < length answer.now.basis.items }
    ensures { IfOk result (λ _. line.new.items ≡ line.old.items ++ line_text (basis_line (answer_of answer.now) place)) }
{
    let word = word_at(alloc, &answer.basis, place)?;
    append(line, b"basis ")?;
    write_word(&word, &answer.names, line)?;
    append(line, b"\n")
}

/// Writes the lines of the generators' images.
fn write_images<K: Sink>(
    line: &mut Vec<u8>,
    answer: &Answer,
    zeros: &[u8],
    out: &mut K,
) -> Result<(), OutFault>
    requires answer { IsAnswerValue answer.now }
    requires zeros { zeros.now ≡ zero_entries (length answer.now.basis.items) }
    ensures { Writes (K.output out.old) (K.output out.new) (text_of_lines (image_lines (answer_of answer.now))) result }
{
    for image in &answer.images {
        write_row(line, b"image", answer.basis.len(), image, zeros, out)?;
    }
    Ok(())
}

/// Writes the lines of the matrices.
fn write_matrices<K: Sink>(
    line: &mut Vec<u8>,
    answer: &Answer,
    zeros: &[u8],
    out: &mut K,
) -> Result<(), OutFault>
    requires answer { IsAnswerValue answer.now }
    requires zeros { zeros.now ≡ zero_entries (length answer.now.basis.items) }
    ensures { let A = answer_of answer.now in
        Writes (K.output out.old) (K.output out.new) (text_of_lines (matrix_lines A (length A.names))) result }
{
    for letter in 0..answer.names.count() {
        write_letter(line, answer, letter, zeros, out)?;
    }
    Ok(())
}

/// Writes the lines of a letter: its name, and the rows of its matrix.
fn write_letter<K: Sink>(
    line: &mut Vec<u8>,
    answer: &Answer,
    letter: u8,
    zeros: &[u8],
    out: &mut K,
) -> Result<(), OutFault>
    requires answer { IsAnswerValue answer.now }
    requires letter { letter < length answer.now.names }
    requires zeros { zeros.now ≡ zero_entries (length answer.now.basis.items) }
    ensures { Writes (K.output out.old) (K.output out.new) (text_of_lines (letter_lines (answer_of answer.now) letter)) result }
{
    write_name(line, answer.names.name(letter), out)?;
    write_rows(
        line,
        answer.basis.len(),
        &answer.matrices[usize::from(letter)],
        zeros,
        out,
    )
}

/// Writes the line of a letter's name.
fn write_name<K: Sink>(line: &mut Vec<u8>, name: &str, out: &mut K) -> Result<(), OutFault>
    ensures { Writes (K.output out.old) (K.output out.new) (line_text (codes "letter " ++ name.now)) result }
{
    line.clear();
    append(line, b"letter ")?;
    append(line, name.as_bytes())?;
    append(line, b"\n")?;
    put(line, out)
}

/// Writes the lines of a matrix of `count` columns.
fn write_rows<K: Sink>(
    line: &mut Vec<u8>,
    count: usize,
    matrix: &Matrix,
    zeros: &[u8],
    out: &mut K,
) -> Result<(), OutFault>
    requires rows { (p : ℕ) × All (IsRow p count) matrix.now }
    requires zeros { zeros.now ≡ zero_entries count }
    requires room { count < 2 ^ 32 }
    ensures { Writes (K.output out.old) (K.output out.new) (text_of_lines (map (row_line count) matrix.now)) result }
{
    for at in 0..matrix.size() {
        write_row(line, b"row", count, matrix.row(at), zeros, out)?;
    }
    Ok(())
}

/// Writes a line of a word and the entries of a row of `count` places.
fn write_row<K: Sink>(
    line: &mut Vec<u8>,
    word: &[u8],
    count: usize,
    row: &Sparse,
    zeros: &[u8],
    out: &mut K,
) -> Result<(), OutFault>
    requires row { (p : ℕ) × IsRow p count row.now }
    requires zeros { zeros.now ≡ zero_entries count }
    requires room { count < 2 ^ 32 }
    ensures { Writes (K.output out.old) (K.output out.new) (line_text (word.now ++ row_entries count row.now)) result }
{
    line.clear();
    append(line, word)?;
    append_entries(line, count, row, zeros)?;
    append(line, b"\n")?;
    put(line, out)
}
