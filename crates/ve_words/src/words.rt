ghost use Rattle.std.specs.Prelude.{◌≡◌, codes, map, string_bytes, IfErr, IfOk};
ghost use Rattle.ve_words.specs.Meaning.{Means, Reads, head_of};

use crate::command::Command;
use crate::fault::WordsFault;
use crate::options;
use crate::reading::{flag, number, take};
use std::alloc::Global;

/// The greatest limit, number of threads and number of a presentation that is made.
const MOST_LIMIT: u64 = 1_000_000;

const MOST_WORKERS: u64 = 64;

const MOST_NUMBER: u64 = 1000;

/// The command that the words of a command line mean. The first of them is the program's name, the second the command's; what
/// stands behind that is read by `clap`.
pub fn read_words(alloc: Global, words: &Vec<String>) -> Result<Command, WordsFault>
    ensures means { IfOk result (Means (map string_bytes words.now.items)) }
    ensures refused { IfErr result (λ fault. fault ≡ WordsFault.Refused → (command : Command) → ¬ Means (map string_bytes words.now.items) command) }
{
    match words.as_slice() {
        [_program, rest @ ..] => read_command(alloc, rest),
        [] => Err(WordsFault::Refused),
    }
}

/// The command that the words from its name on mean.
fn read_command(alloc: Global, words: &[String]) -> Result<Command, WordsFault>
    ensures { Reads (head_of (map string_bytes words.now)) (map string_bytes words.now) result }
{
    let Some(name) = words.first() else {
        return Err(WordsFault::Refused);
    };
    match name.as_str() {
        "alone" => read_alone(alloc, words),
        "shared" => read_shared(alloc, words),
        "show" => read_show(alloc, words),
        "check" => read_check(alloc, words),
        "make" => read_make(alloc, words),
        _ => Err(WordsFault::Refused),
    }
}

fn read_alone(alloc: Global, words: &[String]) -> Result<Command, WordsFault>
    ensures { Reads (codes "alone") (map string_bytes words.now) result }
{
    let matches = take(options::alone(alloc)?, words)?;
    Ok(Command::Alone {
        limit: number(&matches, "limit", 1, MOST_LIMIT)? as u32,
        summary: flag(&matches, "summary"),
    })
}

fn read_shared(alloc: Global, words: &[String]) -> Result<Command, WordsFault>
    ensures { Reads (codes "shared") (map string_bytes words.now) result }
{
    let matches = take(options::shared(alloc)?, words)?;
    Ok(Command::Shared {
        workers: number(&matches, "workers", 1, MOST_WORKERS)? as u32,
        limit: number(&matches, "limit", 1, MOST_LIMIT)? as u32,
        summary: flag(&matches, "summary"),
    })
}

fn read_show(alloc: Global, words: &[String]) -> Result<Command, WordsFault>
    ensures { Reads (codes "show") (map string_bytes words.now) result }
{
    take(clap::Command::new(alloc, "show"), words)?;
    Ok(Command::Show)
}

fn read_check(alloc: Global, words: &[String]) -> Result<Command, WordsFault>
    ensures { Reads (codes "check") (map string_bytes words.now) result }
{
    take(clap::Command::new(alloc, "check"), words)?;
    Ok(Command::Check)
}

fn read_make(alloc: Global, words: &[String]) -> Result<Command, WordsFault>
    ensures { Reads (codes "make") (map string_bytes words.now) result }
{
    let matches = take(options::make(alloc)?, words)?;
    Ok(Command::Make {
        points: number(&matches, "points", 0, MOST_NUMBER)?,
        node: number(&matches, "node", 0, MOST_NUMBER)?,
        prime: number(&matches, "prime", 0, MOST_NUMBER)?,
    })
}
