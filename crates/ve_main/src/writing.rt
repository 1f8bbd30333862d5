//! The texts of the commands.

ghost use Rattle.std.specs.Prelude.{◌≤◌, cond, IfErr, IfOk};
ghost use Rattle.ve_formats.specs.AnswerText.{answer_text};
ghost use Rattle.ve_formats.specs.SummaryText.{summary_text};
ghost use Rattle.ve_port.specs.Writing.{Writes};
ghost use Rattle.ve_levels.specs.Advancing.{most_limit};
ghost use Rattle.ve_matrix.specs.Answers.{IsAnswerValue, answer_of};
ghost use Rattle.ve_main.specs.Commands.{Enumerates, Shows, ShowsMade};
ghost use Rattle.ve_main.specs.Ending.{StopsMaking, StopsWriting, WritesText};

use crate::enumeration::{Ended, enumerate};
use crate::stop::Stop;
use std::alloc::Global;
use ve_make::make;
use ve_matrix::Answer;
use ve_out::{write_answer, write_over, write_summary};
use ve_port::{OutFault, Sink};
use ve_pres::Presentation;
use ve_show::show;

/// The status of a run that wrote an answer, or whatever else was asked for.
const DONE: u8 = 0;

/// The status of a run whose limit was outgrown.
const OUTGROWN: u8 = 1;

/// Writes the answer of a presentation, or its summary, or that the limit is outgrown. Answers the status of the run.
pub(crate) fn write_enumeration<K: Sink>(
    alloc: Global,
    presentation: Presentation,
    limit: u32,
    summary: bool,
    out: &mut K,
) -> Result<u8, Stop>
    requires { limit ≤ most_limit }
    ensures written { IfOk result (WritesText (Enumerates presentation.presentation limit summary) (K.output out.old) (K.output out.new)) }
    ensures stopped { IfErr result (StopsWriting (Enumerates presentation.presentation limit summary) (K.output out.old) (K.output out.new)) }
{
    match enumerate(alloc, presentation, limit) {
        Ended::Closed(finished) => {
            let answer = Answer::from_finished(alloc, finished)?;
            write_result(alloc, &answer, summary, out)?;
            Ok(DONE)
        }
        Ended::Over { level, size } => {
            write_over(alloc, level, size, limit, out)?;
            Ok(OUTGROWN)
        }
        Ended::Memory => Err(Stop::Memory),
    }
}

/// Writes an answer, or its summary.
fn write_result<K: Sink>(
    alloc: Global,
    answer: &Answer,
    summary: bool,
    out: &mut K,
) -> Result<(), OutFault>
    requires { IsAnswerValue answer.now }
    ensures { Writes (K.output out.old) (K.output out.new)
        (cond summary (summary_text (answer_of answer.now)) (answer_text (answer_of answer.now))) result }
{
    if summary {
        return write_summary(alloc, answer, out);
    }
    write_answer(alloc, answer, out)
}

/// Writes the canonical text of a presentation. Answers the status of the run.
pub(crate) fn write_shown<K: Sink>(
    alloc: Global,
    presentation: &Presentation,
    out: &mut K,
) -> Result<u8, Stop>
    ensures written { IfOk result (WritesText (Shows presentation.now.presentation) (K.output out.old) (K.output out.new)) }
    ensures stopped { IfErr result (StopsWriting (Shows presentation.now.presentation) (K.output out.old) (K.output out.new)) }
{
    show(alloc, presentation, out)?;
    Ok(DONE)
}

/// Writes the canonical text of the presentation that is made from numbers. Answers the status of the run.
pub(crate) fn write_made<K: Sink>(
    alloc: Global,
    points: u64,
    node: u64,
    prime: u64,
    out: &mut K,
) -> Result<u8, Stop>
    ensures written { IfOk result (WritesText (ShowsMade points node prime) (K.output out.old) (K.output out.new)) }
    ensures stopped { IfErr result (StopsMaking points node prime (K.output out.old) (K.output out.new)) }
{
    let Some(presentation) = make(alloc, points, node, prime)? else {
        return Err(Stop::NoPresentation);
    };
    write_shown(alloc, &presentation, out)
}
