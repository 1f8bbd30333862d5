//! The lines that declare letters.

ghost use Rattle.std.specs.Prelude.{◌≡◌, ◌<◌, ◌++◌, IfOk, None, codes, slice_index_or};
ghost use Rattle.ve_theory.specs.Presentations.{letter_count};
ghost use Rattle.ve_theory.specs.Validity.{IsValid};
ghost use Rattle.ve_formats.specs.Lines.{text_of_lines};
ghost use Rattle.ve_formats.specs.CanonicalText.{declared_text, letter_line};

use ve_lines::{append, append_number};
use ve_pres::Presentation;
use ve_word::Memory;

/// Appends the line of a letter with its line feed. The second letter of a pair has none: it stands on the line of the first.
#[tactic(auto, using(crate::proofs::LetterLines::letter_texts))]
pub(crate) fn append_letter(
    line: &mut Vec<u8>,
    presentation: &Presentation,
    letter: u8,
) -> Result<(), Memory>
    requires valid { IsValid presentation.now.presentation }
    requires letter { letter < letter_count presentation.now.presentation }
    ensures { let P = presentation.now.presentation in
        IfOk result (λ _. line.new.items ≡ line.old.items ++ text_of_lines (letter_line P letter (slice_index_or P.inverses letter None))) }
{
    match presentation.inverse_of(letter) {
        None => append(line, b"letter ")?,
        Some(inverse) if inverse == letter => append(line, b"involution ")?,
        Some(inverse) if inverse == letter + 1 => return append_pair(
            line,
            presentation,
            letter,
            inverse,
        ),
        Some(_) => return Ok(()),
    }
    append_declared(line, presentation, letter)?;
    append(line, b"\n")
}

/// Appends the line of a letter and its inverse, with its line feed.
fn append_pair(
    line: &mut Vec<u8>,
    presentation: &Presentation,
    letter: u8,
    inverse: u8,
) -> Result<(), Memory>
    requires letter { letter < letter_count presentation.now.presentation }
    requires inverse { inverse < letter_count presentation.now.presentation }
    ensures { let P = presentation.now.presentation in
        IfOk result (λ _. line.new.items ≡ line.old.items
        ++ (codes "letter " ++ declared_text P letter ++ codes " inverse " ++ declared_text P inverse ++ codes "\n")) }
{
    append(line, b"letter ")?;
    append_declared(line, presentation, letter)?;
    append(line, b" inverse ")?;
    append_declared(line, presentation, inverse)?;
    append(line, b"\n")
}

/// Appends a letter's name, in version 2 with its weight.
fn append_declared(
    line: &mut Vec<u8>,
    presentation: &Presentation,
    letter: u8,
) -> Result<(), Memory>
    requires { letter < letter_count presentation.now.presentation }
    ensures { IfOk result (λ _. line.new.items ≡ line.old.items ++ declared_text presentation.now.presentation letter) }
{
    append(line, presentation.names().name(letter).as_bytes())?;
    if presentation.version() == 2 {
        append(line, b" weight ")?;
        append_number(line, u64::from(presentation.weight_of(letter)))?;
    }
    Ok(())
}
