ghost use Rattle.std.specs.Prelude.{◌≡◌, ℕ, ◌+◌, ◌<◌, ◌≤◌, ◌++◌, length, IfOk, IfErr, vec_len};
ghost use Rattle.ve_main.specs.Ending.{TakesAll, TakesPiece, StopsTaking, StopsReading};

use crate::stop::Stop;
use std::alloc::Global;
use ve_port::Source;
use ve_word::Memory;

/// How many bytes are asked for at once.
const BUFFER: usize = 65_536;

/// The most bytes that an input may have.
const MOST_INPUT: usize = 16_777_216;

/// Takes the whole input. One byte more than it may have is too much.
pub fn read_input<S: Source>(alloc: Global, source: &mut S) -> Result<Vec<u8>, Stop>
    ensures taken { IfOk result (λ text. TakesAll (S.input source.old) (S.input source.new) text.items) }
    ensures stopped { IfErr result (StopsReading (S.input source.old) (S.input source.new)) }
{
    let mut text = Vec::new(alloc);
    let mut buffer = buffer_of(alloc, BUFFER)?;
    while text.len() <= MOST_INPUT {
        let room = (MOST_INPUT + 1 - text.len()).min(BUFFER);
        if take_piece(source, &mut buffer[..room], &mut text)? == 0 {
            return Ok(text);
        }
    }
    Err(Stop::TooLong)
}

/// A buffer of so many bytes.
fn buffer_of(alloc: Global, size: usize) -> Result<Vec<u8>, Memory>
    ensures { IfOk result (λ buffer. vec_len buffer ≡ size) }
{
    Ok(vec![in alloc; 0u8; size]?)
}

/// Takes the next bytes by way of the buffer, and adds them to the text. Answers how many: none at the end of the input.
fn take_piece<S: Source>(
    source: &mut S,
    buffer: &mut [u8],
    text: &mut Vec<u8>,
) -> Result<usize, Stop>
    requires { 0 < length buffer.old }
    ensures taken { IfOk result (TakesPiece (S.input source.old) (S.input source.new) (length buffer.old) text.old.items text.new.items) }
    ensures stopped { IfErr result (StopsTaking (S.input source.old) (S.input source.new) (length buffer.old)) }
{
    let Ok(taken) = source.take(buffer) else {
        return Err(Stop::Input);
    };
    text.extend_from_slice(&buffer[..taken])
        .map_err(|_| Stop::Memory)?;
    Ok(taken)
}
