//! Writing a presentation, line by line.

ghost use Rattle.std.specs.Prelude.{◌≡◌, ◌<◌, ◌++◌, All, None, codes, decimal, length, map, slice_index_or};
ghost use Rattle.ve_theory.specs.Presentations.{HasLetters, letter_count};
ghost use Rattle.ve_theory.specs.Words.{letters};
ghost use Rattle.ve_theory.specs.Validity.{IsValid};
ghost use Rattle.ve_formats.specs.Lines.{line_text, text_of_lines};
ghost use Rattle.ve_formats.specs.CanonicalText.{balance_line, canonical, letter_line, letter_lines, relation_line, submodule_line};
ghost use Rattle.ve_port.specs.Writing.{Writes};
ghost use Rattle.ve_show.specs.Parts.{declarations_text, numbered_line, relations_text, submodule_text};

use crate::letters::append_letter;
use crate::relations::{append_relation, append_submodule_relation};
use std::alloc::Global;
use ve_lines::{append, append_number};
use ve_port::{OutFault, Sink};
use ve_pres::{FreeAlg, FreeMod, Presentation};

/// Writes the canonical text of a presentation: the version, the prime, the letters, the module, `balance` where relations are
/// balanced, the relations, the submodule relations, `end`. One put holds one line with its line feed.
///
/// By the law `canonical_spells` of `ve_formats` the text spells this presentation, and a text spells one presentation only.
///
/// The answer is `Sink` where a put failed, `Memory` where there was no room for a line. What is written by then is a part of
/// the text from its front.
pub fn show<K: Sink>(
    alloc: Global,
    presentation: &Presentation,
    out: &mut K,
) -> Result<(), OutFault>
    ensures { Writes (K.output out.old) (K.output out.new) (canonical presentation.now.presentation) result }
{
    presentation.is_valid();
    let mut line = Vec::new(alloc);
    show_declarations(&mut line, presentation, out)?;
    show_relations(&mut line, presentation, out)?;
    show_submodule(&mut line, presentation, out)?;
    put(b"end\n", out)
}

/// Writes the lines before those of relations.
fn show_declarations<K: Sink>(
    line: &mut Vec<u8>,
    presentation: &Presentation,
    out: &mut K,
) -> Result<(), OutFault>
    requires { IsValid presentation.now.presentation }
    ensures { Writes (K.output out.old) (K.output out.new) (declarations_text presentation.now.presentation) result }
{
    show_numbered(line, b"venum ", u16::from(presentation.version()), out)?;
    show_numbered(
        line,
        b"prime ",
        u16::from(presentation.field().prime()),
        out,
    )?;
    show_letters(line, presentation, out)?;
    show_numbered(line, b"module ", presentation.roots(), out)?;
    show_balance(presentation, out)
}

/// Writes a line of a word and a number.
#[tactic(auto, unfolding(crate::specs::Parts::numbered_line))]
fn show_numbered<K: Sink>(
    line: &mut Vec<u8>,
    word: &[u8],
    number: u16,
    out: &mut K,
) -> Result<(), OutFault>
    ensures { Writes (K.output out.old) (K.output out.new) (numbered_line word.now number) result }
{
    line.clear();
    append(line, word)?;
    append_number(line, u64::from(number))?;
    append(line, b"\n")?;
    put(line, out)
}

/// Writes the lines of the letters.
fn show_letters<K: Sink>(
    line: &mut Vec<u8>,
    presentation: &Presentation,
    out: &mut K,
) -> Result<(), OutFault>
    requires { IsValid presentation.now.presentation }
    ensures { let P = presentation.now.presentation in
        Writes (K.output out.old) (K.output out.new) (text_of_lines (letter_lines P 0 P.inverses)) result }
{
    for letter in 0..presentation.names().count() {
        show_letter(line, presentation, letter, out)?;
    }
    Ok(())
}

/// Writes the line of a letter, if it has one.
fn show_letter<K: Sink>(
    line: &mut Vec<u8>,
    presentation: &Presentation,
    letter: u8,
    out: &mut K,
) -> Result<(), OutFault>
    requires valid { IsValid presentation.now.presentation }
    requires letter { letter < letter_count presentation.now.presentation }
    ensures { let P = presentation.now.presentation in
        Writes (K.output out.old) (K.output out.new) (text_of_lines (letter_line P letter (slice_index_or P.inverses letter None))) result }
{
    line.clear();
    append_letter(line, presentation, letter)?;
    put(line, out)
}

/// Writes the line `balance`, where relations are balanced.
#[tactic(auto, using(crate::proofs::Numbered::balance_texts))]
fn show_balance<K: Sink>(presentation: &Presentation, out: &mut K) -> Result<(), OutFault>
    ensures { Writes (K.output out.old) (K.output out.new) (text_of_lines (balance_line presentation.now.presentation)) result }
{
    if presentation.is_balanced() {
        return put(b"balance\n", out);
    }
    Ok(())
}

/// Writes the lines of the relations, those of inverses aside.
fn show_relations<K: Sink>(
    line: &mut Vec<u8>,
    presentation: &Presentation,
    out: &mut K,
) -> Result<(), OutFault>
    requires { IsValid presentation.now.presentation }
    ensures { Writes (K.output out.old) (K.output out.new) (relations_text presentation.now.presentation) result }
{
    let first = presentation.letter_relators();
    for at in 0..presentation.relator_count() - first {
        show_relation(line, presentation, presentation.relator(first + at), out)?;
    }
    Ok(())
}

/// Writes the line of a relation.
fn show_relation<K: Sink>(
    line: &mut Vec<u8>,
    presentation: &Presentation,
    relation: &FreeAlg,
    out: &mut K,
) -> Result<(), OutFault>
    requires { All (λ t. HasLetters presentation.now.presentation t.0) relation.now }
    ensures { Writes (K.output out.old) (K.output out.new) (line_text (relation_line presentation.now.presentation relation.now)) result }
{
    line.clear();
    append_relation(line, presentation, relation)?;
    put(line, out)
}

/// Writes the lines of the submodule relations.
fn show_submodule<K: Sink>(
    line: &mut Vec<u8>,
    presentation: &Presentation,
    out: &mut K,
) -> Result<(), OutFault>
    requires { IsValid presentation.now.presentation }
    ensures { Writes (K.output out.old) (K.output out.new) (submodule_text presentation.now.presentation) result }
{
    for at in 0..presentation.sub_count() {
        show_submodule_relation(line, presentation, presentation.sub(at), out)?;
    }
    Ok(())
}

/// Writes the line of a submodule relation.
fn show_submodule_relation<K: Sink>(
    line: &mut Vec<u8>,
    presentation: &Presentation,
    relation: &FreeMod,
    out: &mut K,
) -> Result<(), OutFault>
    requires { All (λ t. HasLetters presentation.now.presentation (letters t.0)) relation.now }
    ensures { Writes (K.output out.old) (K.output out.new) (line_text (submodule_line presentation.now.presentation relation.now)) result }
{
    line.clear();
    append_submodule_relation(line, presentation, relation)?;
    put(line, out)
}

/// Puts the line, if there is one.
fn put<K: Sink>(line: &[u8], out: &mut K) -> Result<(), OutFault>
    ensures { Writes (K.output out.old) (K.output out.new) line.now result }
{
    if !line.is_empty() {
        out.put(line)?;
    }
    Ok(())
}
