ghost use Rattle.std.specs.Prelude.{◌≡◌, ◌≤◌, ℕ, map, string_bytes, IfErr, IfOk};
ghost use Rattle.ve_levels.specs.Advancing.{most_limit};
ghost use Rattle.ve_words.specs.declared.command.Command.TheVariants.{Alone, Check, Show};
ghost use Rattle.ve_main.specs.Commands.{HasLimit};
ghost use Rattle.ve_main.specs.Ending.{Because, BecauseOf, Ends, Finishes, Performs, ServesAll};

use crate::claim::take_claim;
use crate::presentation::take_presentation;
use crate::stop::Stop;
use crate::verdict::write_verdict;
use crate::writing::{write_enumeration, write_made, write_shown};
use std::alloc::Global;
use ve_formats::{answers_are_read_once, spelled_is_valid, text_spells_once};
use ve_port::{Sink, Source};
use ve_read::texts_are_cut_once;
use ve_theory::uniqueness::lists_are_unique;
use ve_words::{Command, read_words, words_mean_once};

/// Runs the command that the words of a command line ask for: reads its input from `source`, writes its text to `out` and
/// the message of a failure to `err`. Answers the status that the program ends with.
///
/// What is asked of threads is done on one, with the same bytes.
pub fn run_alone<S: Source, K: Sink, E: Sink>(
    alloc: Global,
    words: &Vec<String>,
    source: &mut S,
    out: &mut K,
    err: &mut E,
) -> u8
    ensures ends { Ends (map string_bytes words.now.items)
        (record { source = S.input source.old; out = K.output out.old })
        (record { source = S.input source.new; out = K.output out.new })
        (E.output err.old) (E.output err.new) result }
    ensures serves { ServesAll (map string_bytes words.now.items)
        (record { source = S.input source.old; out = K.output out.old })
        (record { source = S.input source.new; out = K.output out.new })
        (E.output err.old) (E.output err.new) result }
{
    text_spells_once();
    spelled_is_valid();
    texts_are_cut_once();
    answers_are_read_once();
    words_mean_once();
    lists_are_unique();
    match execute(alloc, words, source, out) {
        Ok(status) => status,
        Err(stop) => {
            let _ = err.put(stop.message());
            stop.status()
        }
    }
}

/// Does what the words ask for. Answers the status of a run that wrote its text.
fn execute<S: Source, K: Sink>(
    alloc: Global,
    words: &Vec<String>,
    source: &mut S,
    out: &mut K,
) -> Result<u8, Stop>
    ensures finished { IfOk result (Finishes (map string_bytes words.now.items)
        (record { source = S.input source.old; out = K.output out.old })
        (record { source = S.input source.new; out = K.output out.new })) }
    ensures stopped { IfErr result (λ stop. Because stop (map string_bytes words.now.items)
        (record { source = S.input source.old; out = K.output out.old })
        (record { source = S.input source.new; out = K.output out.new })) }
{
    let command = read_words(alloc, words)?;
    perform(alloc, command, source, out)
}

/// Performs a command. Answers the status of a run that wrote its text.
fn perform<S: Source, K: Sink>(
    alloc: Global,
    command: Command,
    source: &mut S,
    out: &mut K,
) -> Result<u8, Stop>
    requires limits { (limit : ℕ) → HasLimit command limit → limit ≤ most_limit }
    ensures finished { IfOk result (Performs command
        (record { source = S.input source.old; out = K.output out.old })
        (record { source = S.input source.new; out = K.output out.new })) }
    ensures stopped { IfErr result (λ stop. BecauseOf stop command
        (record { source = S.input source.old; out = K.output out.old })
        (record { source = S.input source.new; out = K.output out.new })) }
{
    match command {
        Command::Alone { limit, summary } => answer_presentation(
            alloc, limit, summary, source, out,
        ),
        // What is asked of threads is done on one.
        Command::Shared { limit, summary, .. } => answer_presentation(
            alloc, limit, summary, source, out,
        ),
        Command::Show => show_presentation(alloc, source, out),
        Command::Check => check_claim(alloc, source, out),
        Command::Make {
            points,
            node,
            prime,
        } => write_made(alloc, points, node, prime, out),
    }
}

/// Answers the presentation that is read.
fn answer_presentation<S: Source, K: Sink>(
    alloc: Global,
    limit: u32,
    summary: bool,
    source: &mut S,
    out: &mut K,
) -> Result<u8, Stop>
    requires { limit ≤ most_limit }
    ensures finished { IfOk result (Performs (Alone limit summary)
        (record { source = S.input source.old; out = K.output out.old })
        (record { source = S.input source.new; out = K.output out.new })) }
    ensures stopped { IfErr result (λ stop. BecauseOf stop (Alone limit summary)
        (record { source = S.input source.old; out = K.output out.old })
        (record { source = S.input source.new; out = K.output out.new })) }
{
    let presentation = take_presentation(alloc, source)?;
    write_enumeration(alloc, presentation, limit, summary, out)
}

/// Shows the presentation that is read.
fn show_presentation<S: Source, K: Sink>(
    alloc: Global,
    source: &mut S,
    out: &mut K,
) -> Result<u8, Stop>
    ensures finished { IfOk result (Performs Show
        (record { source = S.input source.old; out = K.output out.old })
        (record { source = S.input source.new; out = K.output out.new })) }
    ensures stopped { IfErr result (λ stop. BecauseOf stop Show
        (record { source = S.input source.old; out = K.output out.old })
        (record { source = S.input source.new; out = K.output out.new })) }
{
    let presentation = take_presentation(alloc, source)?;
    write_shown(alloc, &presentation, out)
}

/// Judges the claim that is read.
fn check_claim<S: Source, K: Sink>(alloc: Global, source: &mut S, out: &mut K) -> Result<u8, Stop>
    ensures finished { IfOk result (Performs Check
        (record { source = S.input source.old; out = K.output out.old })
        (record { source = S.input source.new; out = K.output out.new })) }
    ensures stopped { IfErr result (λ stop. BecauseOf stop Check
        (record { source = S.input source.old; out = K.output out.old })
        (record { source = S.input source.new; out = K.output out.new })) }
{
    let claim = take_claim(alloc, source)?;
    write_verdict(alloc, &claim, out)
}
