//! What is checked: a presentation, and an answer that is claimed for it.

ghost use Rattle.std.specs.Prelude.{◌≡◌, IfErr, IfOk};
ghost use Rattle.ve_formats.specs.AnswerReading.{ShowsAnswer, IsNoAnswerAt};
ghost use Rattle.ve_formats.specs.Messages.{answer_refusal_message as message_of};
ghost use Rattle.ve_matrix.specs.Answers.{IsAnswerValue, answer_of};
ghost use Rattle.ve_main.specs.Claims.{IsClaim, IsNoAnswer, IsNoClaim};
ghost use Rattle.ve_main.specs.Ending.{StopsReadingText, StopsTakingText, TakesClaim};

use crate::input::read_input;
use crate::presentation::read_presentation;
use crate::refusal::answer_refusal_message;
use crate::stop::Stop;
use std::alloc::Global;
use ve_answers::{AnswerRefusal, read_answer};
use ve_matrix::Answer;
use ve_port::Source;
use ve_pres::Presentation;
use ve_read::split;

/// A presentation, and an answer that is claimed for it.
#[derive(Drop)]
pub(crate) struct Claim {
    pub(crate) presentation: Presentation,
    pub(crate) answer: Answer,
}

/// Takes the whole input, and reads the presentation that its front spells, and the answer that the rest shows.
pub(crate) fn take_claim<S: Source>(alloc: Global, source: &mut S) -> Result<Claim, Stop>
    ensures taken { IfOk result (λ claim. TakesClaim (S.input source.old) (S.input source.new) claim.presentation.presentation (answer_of claim.answer)) }
    ensures answer { IfOk result (λ claim. IsAnswerValue claim.answer) }
    ensures stopped { IfErr result (StopsTakingText IsNoClaim (S.input source.old) (S.input source.new)) }
{
    let input = read_input(alloc, source)?;
    read_claim(alloc, &input)
}

/// The claim of a text.
fn read_claim(alloc: Global, text: &[u8]) -> Result<Claim, Stop>
    ensures claim { IfOk result (λ claim. IsClaim text.now claim.presentation.presentation (answer_of claim.answer)) }
    ensures answer { IfOk result (λ claim. IsAnswerValue claim.answer) }
    ensures stopped { IfErr result (StopsReadingText (IsNoClaim text.now)) }
{
    let (front, behind) = text.split_at(split(text));
    let presentation = read_presentation(alloc, front)?;
    let answer = read_claimed(alloc, behind)?;
    Ok(Claim {
        presentation,
        answer,
    })
}

/// The answer that a text shows.
fn read_claimed(alloc: Global, text: &[u8]) -> Result<Answer, Stop>
    ensures shown { IfOk result (λ answer. ShowsAnswer text.now (answer_of answer)) }
    ensures value { IfOk result IsAnswerValue }
    ensures stopped { IfErr result (StopsReadingText (IsNoAnswer text.now)) }
{
    match read_answer(alloc, text) {
        Ok(answer) => Ok(answer),
        Err(AnswerRefusal::Line { line }) => {
            Err(Stop::Refused(answer_refusal_message(alloc, line)?))
        }
        Err(AnswerRefusal::Memory) => Err(Stop::Memory),
    }
}
