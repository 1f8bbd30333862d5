//! Writing that a level is outgrown.

ghost use Rattle.ve_formats.specs.OutgrownText.{outgrown_text};
ghost use Rattle.ve_port.specs.Writing.{Writes};

use crate::numbered::write_numbered;
use std::alloc::Global;
use ve_lines::put;
use ve_port::{OutFault, Sink};

/// Writes that a level is outgrown: the level, its size, and the limit that it is above. One put holds one line with its line
/// feed.
///
/// The answer is `Sink` where a put failed, `Memory` where there was no room for a line. What is written by then is a part of
/// the text from its front.
pub fn write_over<K: Sink>(
    alloc: Global,
    level: u32,
    size: u64,
    limit: u32,
    out: &mut K,
) -> Result<(), OutFault>
    ensures { Writes (K.output out.old) (K.output out.new) (outgrown_text level size limit) result }
{
    let mut line = Vec::new(alloc);
    put(b"venum-over 1\n", out)?;
    write_numbered(&mut line, b"level", u64::from(level), out)?;
    write_numbered(&mut line, b"size", size, out)?;
    write_numbered(&mut line, b"limit", u64::from(limit), out)?;
    put(b"end\n", out)
}
