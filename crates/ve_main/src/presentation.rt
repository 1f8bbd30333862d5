//! The presentation that is read.

ghost use Rattle.std.specs.Prelude.{IfErr, IfOk};
ghost use Rattle.ve_formats.specs.PresentationText.{Spells};
ghost use Rattle.ve_main.specs.Refusals.{IsRefused};
ghost use Rattle.ve_main.specs.Ending.{StopsReadingText, StopsTakingText, TakesPresentation};

use crate::input::read_input;
use crate::refusal::refusal_message;
use crate::stop::Stop;
use std::alloc::Global;
use ve_port::Source;
use ve_pres::Presentation;
use ve_read::{Why, read};

/// Takes the whole input, and reads the presentation that it spells.
pub(crate) fn take_presentation<S: Source>(
    alloc: Global,
    source: &mut S,
) -> Result<Presentation, Stop>
    ensures taken { IfOk result (λ draft. TakesPresentation (S.input source.old) (S.input source.new) draft.presentation) }
    ensures stopped { IfErr result (StopsTakingText IsRefused (S.input source.old) (S.input source.new)) }
{
    let input = read_input(alloc, source)?;
    read_presentation(alloc, &input)
}

/// The presentation that a text spells.
pub(crate) fn read_presentation(alloc: Global, text: &[u8]) -> Result<Presentation, Stop>
    ensures spelled { IfOk result (λ presentation. Spells text.now presentation.presentation) }
    ensures stopped { IfErr result (StopsReadingText (IsRefused text.now)) }
{
    match read(alloc, text) {
        Ok(presentation) => Ok(presentation),
        Err(refusal) if refusal.why == Why::Memory => Err(Stop::Memory),
        Err(refusal) => Err(Stop::Refused(refusal_message(alloc, &refusal)?)),
    }
}
