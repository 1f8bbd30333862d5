//! Lines of a word and a number.

ghost use Rattle.ve_formats.specs.AnswerText.{numbered};
ghost use Rattle.ve_formats.specs.Lines.{line_text};
ghost use Rattle.ve_port.specs.Writing.{Writes};

use ve_lines::{append, append_number, put};
use ve_port::{OutFault, Sink};

/// Writes a line of a word and a number.
pub(crate) fn write_numbered<K: Sink>(
    line: &mut Vec<u8>,
    word: &[u8],
    number: u64,
    out: &mut K,
) -> Result<(), OutFault>
    ensures { Writes (K.output out.old) (K.output out.new) (line_text (numbered word.now number)) result }
{
    line.clear();
    append(line, word)?;
    append(line, b" ")?;
    append_number(line, number)?;
    append(line, b"\n")?;
    put(line, out)
}
