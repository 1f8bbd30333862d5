//! Lines of texts, made piece by piece and put.
#![tactic(auto)]

ghost use Rattle.std.specs.Prelude.{◌≡◌, ◌++◌, IfOk, decimal};
ghost use Rattle.ve_port.specs.Writing.{Writes};

use itoa::Buffer;
use ve_port::{OutFault, Sink};
use ve_word::Memory;

/// Appends the bytes.
pub fn append(line: &mut Vec<u8>, bytes: &[u8]) -> Result<(), Memory>
    ensures { IfOk result (λ _. line.new.items ≡ line.old.items ++ bytes.now) }
{
    line.extend_from_slice(bytes)?;
    Ok(())
}

/// Appends a number.
pub fn append_number(line: &mut Vec<u8>, number: u64) -> Result<(), Memory>
    ensures { IfOk result (λ _. line.new.items ≡ line.old.items ++ decimal number) }
{
    let mut digits = Buffer::new();
    append(line, digits.format(number).as_bytes())
}

/// Puts the bytes, which are a line with its line feed.
pub fn put<K: Sink>(bytes: &[u8], out: &mut K) -> Result<(), OutFault>
    ensures { Writes (K.output out.old) (K.output out.new) bytes.now result }
{
    out.put(bytes)?;
    Ok(())
}
