//! Writing the summary of an answer.

ghost use Rattle.std.specs.Prelude.{◌≡◌, ℕ, ◌<◌, ◌++◌, All, IfOk, codes, decimal, length};
ghost use Rattle.ve_theory.specs.Answers.{IsRow};
ghost use Rattle.ve_formats.specs.SummaryText.{letter_summary, nonzero_entries, summary_text, trace};
ghost use Rattle.ve_formats.specs.Lines.{line_text};
ghost use Rattle.ve_matrix.specs.Answers.{IsAnswerValue, answer_of};
ghost use Rattle.ve_port.specs.Writing.{Writes};
ghost use Rattle.ve_out.specs.Parts.{figures_line, letters_text};

use crate::numbered::write_numbered;
use std::alloc::Global;
use ve_field::Field;
use ve_lines::{append, append_number, put};
use ve_matrix::{Answer, Matrix};
use ve_port::{OutFault, Sink};
use ve_word::Memory;

/// Writes the summary of an answer: its dimension, and for each letter how many entries of its matrix are not 0, and the
/// residue of the sum of its diagonal. One put holds one line with its line feed.
///
/// The answer is `Sink` where a put failed, `Memory` where there was no room for a line. What is written by then is a part of
/// the text from its front.
pub fn write_summary<K: Sink>(alloc: Global, answer: &Answer, out: &mut K) -> Result<(), OutFault>
    requires { IsAnswerValue answer.now }
    ensures { Writes (K.output out.old) (K.output out.new) (summary_text (answer_of answer.now)) result }
{
    let mut line = Vec::new(alloc);
    put(b"venum-summary 1\n", out)?;
    write_numbered(&mut line, b"dimension", answer.basis.len() as u64, out)?;
    write_letters(&mut line, answer, out)?;
    put(b"end\n", out)
}

/// Writes the lines of the letters.
fn write_letters<K: Sink>(line: &mut Vec<u8>, answer: &Answer, out: &mut K) -> Result<(), OutFault>
    requires { IsAnswerValue answer.now }
    ensures { Writes (K.output out.old) (K.output out.new) (letters_text (answer_of answer.now)) result }
{
    for letter in 0..answer.names.count() {
        line.clear();
        append_letter(line, answer, letter)?;
        put(line, out)?;
    }
    Ok(())
}

/// Appends the line of a letter.
fn append_letter(line: &mut Vec<u8>, answer: &Answer, letter: u8) -> Result<(), Memory>
    requires answer { IsAnswerValue answer.now }
    requires letter { letter < length answer.now.names }
    ensures { IfOk result (λ _. line.new.items ≡ line.old.items ++ line_text (letter_summary (answer_of answer.now) letter)) }
{
    let matrix = &answer.matrices[usize::from(letter)];
    let trace = trace(&answer.field, matrix);
    append_figures(
        line,
        answer.names.name(letter),
        count_nonzero(matrix),
        trace,
    )
}

/// Appends the line of a letter with its figures.
fn append_figures(line: &mut Vec<u8>, name: &str, nonzero: u64, trace: u8) -> Result<(), Memory>
    ensures { IfOk result (λ _. line.new.items ≡ line.old.items ++ line_text (figures_line name.now nonzero trace)) }
{
    append(line, b"letter ")?;
    append(line, name.as_bytes())?;
    append_figure(line, b" nonzero ", nonzero)?;
    append_figure(line, b" trace ", u64::from(trace))?;
    append(line, b"\n")
}

/// Appends a label and a number.
fn append_figure(line: &mut Vec<u8>, label: &[u8], figure: u64) -> Result<(), Memory>
    ensures { IfOk result (λ _. line.new.items ≡ line.old.items ++ (label.now ++ decimal figure)) }
{
    append(line, label)?;
    append_number(line, figure)
}

/// How many entries of a matrix are not 0.
fn count_nonzero(matrix: &Matrix) -> u64
    requires { (p : ℕ) × All (IsRow p (length matrix.now)) matrix.now }
    ensures { result ≡ nonzero_entries (length matrix.now) matrix.now }
{
    matrix.is_square();
    let mut count = 0;
    for at in 0..matrix.size() {
        count += matrix.row(at).len() as u64;
    }
    count
}

/// The residue of the sum of a matrix's diagonal.
fn trace(field: &Field, matrix: &Matrix) -> u8
    ensures { result ≡ trace field.now (length matrix.now) matrix.now }
{
    let mut sum = 0;
    for at in 0..matrix.size() {
        sum += u64::from(matrix.row(at).coef_of(at));
    }
    field.reduce(u128::from(sum))
}
