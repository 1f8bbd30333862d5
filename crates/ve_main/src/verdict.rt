//! What is said of a claim.

ghost use Rattle.std.specs.Prelude.{◌≡◌, ◌++◌, IfErr, IfOk, decimal};
ghost use Rattle.ve_formats.specs.VerdictText.{verdict_line as line_of, verdict_text as text_of};
ghost use Rattle.ve_check.specs.Verdicts.{CountsFromOne, theory_verdict};
ghost use Rattle.ve_matrix.specs.Answers.{IsAnswerValue, answer_of};
ghost use Rattle.ve_main.specs.Claims.{Judges};
ghost use Rattle.ve_main.specs.Ending.{StopsWriting, WritesText};

use crate::claim::Claim;
use crate::stop::Stop;
use std::alloc::Global;
use ve_check::{Verdict, WhyNot, check};
use ve_lines::{append, append_number, put};
use ve_port::Sink;
use ve_word::Memory;

/// The status of a run that found the answer to be a quotient.
const QUOTIENT: u8 = 0;

/// The status of a run that found that it isn't.
const NO_QUOTIENT: u8 = 7;

/// Checks a claim, and writes the verdict. Answers the status of the run.
pub(crate) fn write_verdict<K: Sink>(alloc: Global, claim: &Claim, out: &mut K) -> Result<u8, Stop>
    requires { IsAnswerValue claim.now.answer }
    ensures written { IfOk result (WritesText (Judges claim.now.presentation.presentation (answer_of claim.now.answer)) (K.output out.old) (K.output out.new)) }
    ensures stopped { IfErr result (StopsWriting (Judges claim.now.presentation.presentation (answer_of claim.now.answer)) (K.output out.old) (K.output out.new)) }
{
    let verdict = check(&claim.presentation, &claim.answer)?;
    let text = verdict_text(alloc, &verdict)?;
    put(&text, out)?;
    Ok(match verdict {
        Verdict::Yes => QUOTIENT,
        Verdict::No(_) => NO_QUOTIENT,
    })
}

/// The line of a verdict.
fn verdict_text(alloc: Global, verdict: &Verdict) -> Result<Vec<u8>, Memory>
    requires { CountsFromOne verdict.now }
    ensures { IfOk result (λ text. text.items ≡ text_of (theory_verdict verdict.now)) }
{
    let mut text = Vec::new(alloc);
    match verdict {
        Verdict::Yes => append(&mut text, b"yes")?,
        Verdict::No(why) => append_why_not(&mut text, why)?,
    }
    append(&mut text, b"\n")?;
    Ok(text)
}

/// Appends why an answer is no quotient.
fn append_why_not(text: &mut Vec<u8>, why: &WhyNot) -> Result<(), Memory>
    requires { CountsFromOne (Verdict.No why.now) }
    ensures { IfOk result (λ _. text.new.items ≡ text.old.items ++ line_of (theory_verdict (Verdict.No why.now))) }
{
    match why {
        WhyNot::Shape => append(text, b"no shape"),
        WhyNot::RelatorFails { number, row } => {
            append_counted(text, b"no relator ", *number)?;
            append_counted(text, b" row ", *row)
        }
        WhyNot::SubFails { number } => append_counted(text, b"no sub ", *number),
        WhyNot::BasisWord { row } => append_counted(text, b"no basis ", *row),
    }
}

/// Appends words and a number.
fn append_counted(text: &mut Vec<u8>, words: &[u8], number: u32) -> Result<(), Memory>
    ensures { IfOk result (λ _. text.new.items ≡ text.old.items ++ (words.now ++ decimal number)) }
{
    append(text, words)?;
    append_number(text, u64::from(number))
}
