//! The lines of a text, one after another.

ghost use Rattle.std.specs.Prelude.{◌≡◌, ◌↔◌, ℕ, IsTrue, ◌+◌, ◌<◌, ◌≤◌, ◌≢◌, List, IfOk, IfErr, OnOk, ◌++◌, ◌∷◌, [], ◌^◌, length, MatchResult, MatchOption, Some, IsNone, decimal};
ghost use Rattle.ve_formats.specs.AnswerText.{numbered};
ghost use Rattle.ve_formats.specs.AnswerReading.{Draft};
ghost use Rattle.ve_answers.specs.Steps.{IsCounted, Refuses, RefusesNext, TakesLine, lines_left};
ghost use Rattle.ve_answers.specs.declared.refusal.AnswerRefusal.TheVariants.{Line};

use crate::AnswerRefusal;
use itoa::Buffer;
use std::str;
use ve_lex::next_line;

/// What is left of a text, and how many lines were taken from it.
#[derive(Drop)]
pub(crate) struct Lines<'a> {
    rest: &'a [u8],
    taken: u64,
}

impl<'a> Lines<'a> {
    pub(crate) fn new(text: &'a [u8]) -> Lines<'a>
        ensures rest { result.rest.now ≡ text.now }
        ensures taken { result.taken ≡ 0 }
        ensures counted { IsCounted result }
    {
        Lines {
            rest: text,
            taken: 0,
        }
    }

    /// The next line, without its line feed. It is refused where the text has ended.
    pub(crate) fn next(&mut self) -> Result<&'a [u8], AnswerRefusal>
        requires { IsCounted self.old }
        ensures ok { IfOk result (λ line. TakesLine self.old line.now self.new) }
        ensures err { IfErr result (λ refusal. (lines_left self.old ≡ []) × (refusal ≡ Line (self.old.taken + 1))) }
    {
        self.taken += 1;
        let Some((line, rest)) = next_line(self.rest) else {
            return Err(self.refusal());
        };
        self.rest = rest;
        Ok(line)
    }

    /// That the line that was taken last is refused.
    pub(crate) fn refusal(&self) -> AnswerRefusal
        ensures { result ≡ Line self.now.taken }
    {
        AnswerRefusal::Line { line: self.taken }
    }

    /// Takes the next line, which has to be this one.
    pub(crate) fn take(&mut self, line: &[u8]) -> Result<(), AnswerRefusal>
        requires { IsCounted self.old }
        ensures ok { OnOk result (TakesLine self.old line.now self.new) }
        ensures err { IfErr result (RefusesNext self.old (λ other. other ≡ line.now)) }
    {
        if self.next()? != line {
            return Err(self.refusal());
        }
        Ok(())
    }

    /// Takes the next line, which has to be this word and a number of at most `most`.
    pub(crate) fn take_number(&mut self, word: &[u8], most: u64) -> Result<u64, AnswerRefusal>
        requires { IsCounted self.old }
        ensures ok { IfOk result (λ n. TakesLine self.old (numbered word.now n) self.new) }
        ensures most { IfOk result (λ n. n ≤ most) }
        ensures err { IfErr result
            (RefusesNext self.old (λ other. (n : ℕ) × (n ≤ most) × (other ≡ numbered word.now n))) }
    {
        match numbered(self.next()?, word, most) {
            Some(number) => Ok(number),
            None => Err(self.refusal()),
        }
    }

    /// Refuses the next line, if there is one.
    pub(crate) fn finish(&mut self) -> Result<(), AnswerRefusal>
        requires { IsCounted self.old }
        ensures ok { OnOk result (lines_left self.old ≡ []) }
        ensures err { IfErr result (λ refusal. (draft : Draft) → Refuses draft [] self.old refusal) }
    {
        if self.rest.is_empty() {
            return Ok(());
        }
        self.taken += 1;
        Err(self.refusal())
    }
}

/// The number of a line that is this word, a space and a number of at most `most`.
pub(crate) fn numbered(line: &[u8], word: &[u8], most: u64) -> Option<u64>
    ensures { MatchOption result ((n : ℕ) → n ≤ most → line.now ≢ numbered word.now n)
        (λ n. (line.now ≡ numbered word.now n) × (n ≤ most)) }
{
    decimal(behind_space(line.strip_prefix(word)?)?, most)
}

/// What stands behind a space.
pub(crate) fn behind_space(text: &[u8]) -> Option<&[u8]>
    ensures { MatchOption result ((rest : List ℕ) → text.now ≢ 32 ∷ rest) (λ rest. text.now ≡ 32 ∷ rest.now) }
{
    text.strip_prefix(b" ")
}

/// The number that is written so, if it is at most `most`.
pub(crate) fn decimal(digits: &[u8], most: u64) -> Option<u64>
    ensures { MatchOption result ((n : ℕ) → n ≤ most → digits.now ≢ decimal n)
        (λ n. (digits.now ≡ decimal n) × (n ≤ most)) }
{
    let number = parsed(digits)?;
    if number > most || !is_written(number, digits) {
        return None;
    }
    Some(number)
}

/// The number that digits stand for, of which the first ones may be zeros.
fn parsed(digits: &[u8]) -> Option<u64>
    ensures { (n : ℕ) → n < 2 ^ 64 → digits.now ≡ decimal n → result ≡ Some n }
{
    str::from_utf8(digits).ok()?.parse().ok()
}

/// Whether these are the number's digits.
fn is_written(number: u64, digits: &[u8]) -> bool
    ensures { IsTrue result ↔ (digits.now ≡ decimal number) }
{
    let mut figures = Buffer::new();
    figures.format(number).as_bytes() == digits
}
