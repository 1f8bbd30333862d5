//! Reading an answer, line by line.

ghost use Rattle.std.specs.Prelude.{MatchResult};
ghost use Rattle.ve_formats.specs.AnswerReading.{ShowsAnswer};
ghost use Rattle.ve_matrix.specs.Answers.{IsAnswerValue, answer_of};
ghost use Rattle.ve_answers.specs.Refusals.{IsRefusal};

use crate::AnswerRefusal;
use crate::basis::read_basis;
use crate::head::read_head;
use crate::lines::Lines;
use crate::rows::{read_matrices, read_rows};
use std::alloc::Global;
use ve_matrix::Answer;

/// The answer that a text shows, or the first line that doesn't have the form that its place asks for.
///
/// The text is exactly what is written of the answer, but for its last line feed, which may be missing. The time is
/// linear in its length.
pub fn read_answer(alloc: Global, text: &[u8]) -> Result<Answer, AnswerRefusal>
    ensures { MatchResult result
        (λ answer. ShowsAnswer text.now (answer_of answer) × IsAnswerValue answer)
        (IsRefusal text.now) }
{
    // A law by which lines that fill all places show an answer. It does nothing.
    ve_formats::answers_are_read_once();
    let mut lines = Lines::new(text);
    let head = read_head(alloc, &mut lines)?;
    let basis = read_basis(alloc, &head, &mut lines)?;
    let images = read_rows(alloc, &head, b"image", u32::from(head.roots), &mut lines)?;
    let matrices = read_matrices(alloc, &head, &mut lines)?;
    lines.take(b"end")?;
    lines.finish()?;
    Ok(Answer {
        field: head.field,
        names: head.names,
        roots: head.roots,
        closed: head.closed,
        basis,
        images,
        matrices,
    })
}
