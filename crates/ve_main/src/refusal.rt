//! What is told of a refused text.

ghost use Rattle.std.specs.Prelude.{◌≡◌, ◌++◌, IfOk, IfSome, decimal};
ghost use Rattle.ve_formats.specs.Messages.{answer_refusal_message as answer_message_of, cause_text, refusal_message as message_of};
ghost use Rattle.ve_read.specs.Refusals.{cause_of};

use std::alloc::Global;
use ve_lex::LexFault;
use ve_lines::{append, append_number};
use ve_pres::Limit;
use ve_read::{ReadRefusal, Why};
use ve_word::Memory;

/// The line that tells where a text is refused, and why.
pub(crate) fn refusal_message(alloc: Global, refusal: &ReadRefusal) -> Result<Vec<u8>, Memory>
    ensures { IfOk result (λ message. IfSome (cause_of refusal.now.why) (λ cause. message.items ≡ message_of refusal.now.line cause)) }
{
    let mut message = Vec::new(alloc);
    append(&mut message, b"venum: line ")?;
    append_number(&mut message, refusal.line)?;
    append(&mut message, b": ")?;
    append_why(&mut message, refusal.why)?;
    append(&mut message, b"\n")?;
    Ok(message)
}

/// The line that tells where a text is refused as an answer.
pub(crate) fn answer_refusal_message(alloc: Global, line: u64) -> Result<Vec<u8>, Memory>
    ensures { IfOk result (λ message. message.items ≡ answer_message_of line) }
{
    let mut message = Vec::new(alloc);
    append(&mut message, b"venum: answer line ")?;
    append_number(&mut message, line)?;
    append(&mut message, b": not an answer\n")?;
    Ok(message)
}

/// Appends the words for a reason.
fn append_why(text: &mut Vec<u8>, why: Why) -> Result<(), Memory>
    ensures { IfOk result (λ _. IfSome (cause_of why) (λ cause. text.new.items ≡ text.old.items ++ cause_text cause)) }
{
    match why {
        Why::Lex(fault) => append_lex_fault(text, fault),
        Why::TooDeep => append(text, b"more than 64 open parentheses"),
        Why::WrongLine => append(text, b"this line is not expected here"),
        Why::BadPrime => append(text, b"not a prime below 256"),
        Why::NameTaken => append(text, b"name already taken"),
        Why::BadWeight => append(text, b"weight not from 1 to 16"),
        Why::UnknownName => append(text, b"unknown name"),
        Why::ExponentTooLarge => append(text, b"exponent above 1000"),
        Why::NoInverse => append(text, b"no inverse"),
        Why::Limit(limit) => append_limit(text, limit),
        Why::MissingEnd => append(text, b"end is missing"),
        Why::AfterEnd => append(text, b"text after end"),
        Why::Memory => append(text, b"out of memory"),
    }
}

/// Appends the words for a fault of tokens.
fn append_lex_fault(text: &mut Vec<u8>, fault: LexFault) -> Result<(), Memory>
    ensures { IfOk result (λ _. IfSome (cause_of (Why.Lex fault)) (λ cause. text.new.items ≡ text.old.items ++ cause_text cause)) }
{
    match fault {
        LexFault::BadByte { at } => append_around(text, b"byte ", at, b" begins no token"),
        LexFault::LongNumber { at } => {
            append_around(text, b"number at byte ", at, b" has more than 18 digits")
        }
        LexFault::Memory => append(text, b"out of memory"),
    }
}

/// Appends the words for a limit that is passed.
fn append_limit(text: &mut Vec<u8>, limit: Limit) -> Result<(), Memory>
    ensures { IfOk result (λ _. IfSome (cause_of (Why.Limit limit)) (λ cause. text.new.items ≡ text.old.items ++ cause_text cause)) }
{
    match limit {
        Limit::Letters => append(text, b"more than 32 letters"),
        Limit::Roots => append(text, b"more than 255 module generators"),
        Limit::Relations => append(text, b"more than 4096 relations"),
        Limit::Terms { count } => append_around(text, b"", count, b" terms, more than 4096"),
        Limit::Length { length } => {
            append_around(
                text,
                b"word of length ",
                u64::from(length),
                b", more than 1000",
            )
        }
        Limit::Cells { cells } => append_around(text, b"", cells, b" cells, more than 8388608"),
    }
}

/// Appends a number with the words around it.
fn append_around(
    text: &mut Vec<u8>,
    before: &[u8],
    number: u64,
    behind: &[u8],
) -> Result<(), Memory>
    ensures { IfOk result (λ _. text.new.items ≡ text.old.items ++ (before.now ++ decimal number ++ behind.now)) }
{
    append(text, before)?;
    append_number(text, number)?;
    append(text, behind)
}
