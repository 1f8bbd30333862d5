//! Words, taken by `clap` as a simple command, and the values that they give.

ghost use Rattle.std.specs.Prelude.{◌≡◌, ◌≢◌, ◌≤◌, ℕ, [], true, map, string_bytes, IfErr, IfOk};
ghost use Rattle.clap.specs.Words.{app_of, fault_of, found_of, is_simple_and_free, is_simple, kind_of, matches_of, rows_of};
ghost use Rattle.ve_words.specs.Meaning.{IsFlag, IsNumber};

use crate::fault::WordsFault;
use clap::error::ErrorKind;
use clap::{ArgMatches, Command, Error};

/// What the words give a simple command, of which the first is its name.
pub(crate) fn take<'a>(
    command: Command<'a>,
    words: &'a [String],
) -> Result<ArgMatches<'a>, WordsFault>
    requires free { is_simple_and_free (app_of command) ≡ true }
    requires simple { is_simple (app_of command) ≡ true }
    ensures taken { IfOk result (λ _. fault_of (app_of command.entry) (map string_bytes words.entry.now) ≡ []) }
    ensures rows { IfOk result (λ m. rows_of (found_of m) ≡ matches_of (app_of command.entry) (map string_bytes words.entry.now)) }
    ensures refused { IfErr result (λ fault. fault ≡ WordsFault.Refused → fault_of (app_of command.entry) (map string_bytes words.entry.now) ≢ []) }
{
    match command.try_get_matches_from(words) {
        Ok(matches) => Ok(matches),
        Err(error) => Err(fault_of(&error)),
    }
}

/// Words are refused for every fault but want of memory, an asked-for help text among them.
fn fault_of(error: &Error) -> WordsFault
    ensures { result ≡ WordsFault.Refused → kind_of error.now ≢ ErrorKind.OutOfMemory }
{
    match error.kind() {
        ErrorKind::OutOfMemory => WordsFault::Memory,
        _ => WordsFault::Refused,
    }
}

/// The value of an option, a number in these bounds.
pub(crate) fn number(
    matches: &ArgMatches,
    name: &str,
    low: u64,
    high: u64,
) -> Result<u64, WordsFault>
    ensures given { IfOk result (IsNumber (rows_of (found_of matches.now)) name.now low high) }
    ensures refused { IfErr result (λ fault. (fault ≡ WordsFault.Refused) × ((n : ℕ) → ¬ IsNumber (rows_of (found_of matches.now)) name.now low high n)) }
{
    let Some(number) = matches.get_one::<u64>(name) else {
        return Err(WordsFault::Refused);
    };
    if number < low || number > high {
        return Err(WordsFault::Refused);
    }
    Ok(number)
}

/// Whether a flag is set.
pub(crate) fn flag(matches: &ArgMatches, name: &str) -> bool
    ensures { IsFlag (rows_of (found_of matches.now)) name.now result }
{
    match matches.get_str(name) {
        Some(text) => text == "true",
        None => false,
    }
}
