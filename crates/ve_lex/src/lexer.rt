ghost use Rattle.std.specs.Prelude.{◌≡◌, ◌+◌, ◌^◌, ◌<◌, ◌≤◌, ◌≢◌, map, length, All, IfOk, IfErr, OnOk, IsTrue};
ghost use Rattle.std.specs.List.{list_all};
ghost use Rattle.ve_theory.specs.Validity.{is_digit};
ghost use Rattle.ve_formats.specs.Tokens.{number, Lexes, AreInOrder, StartsWithout, is_separator, most_digits};
ghost use Rattle.ve_lex.specs.Lexed.{token_of, placed_of, HasItsValue, IsFaultOf, IsFrontOf, IsNextOf};

use crate::bytes;
use crate::token::{LexFault, Placed, Token};
use std::alloc::Global;

/// The most digits that a number may have.
const MOST_DIGITS: usize = 18;

/// The tokens of a line in order, or its first fault. In time linear in the line's length.
pub fn tokens<'a>(alloc: Global, line: &'a [u8]) -> Result<Vec<Placed<'a>>, LexFault>
    ensures tokens { IfOk result (λ tokens. Lexes 0 line.now (map placed_of tokens.items)) }
    ensures values { IfOk result (λ tokens. All (λ placed. HasItsValue placed.token) tokens.items) }
    ensures places { IfOk result (λ tokens. AreInOrder line.now 0 (map placed_of tokens.items)) }
    ensures fault { IfErr result (λ fault. fault ≢ LexFault.Memory → IsFaultOf 0 line.now fault) }
{
    // A law that the clause on places is drawn from. It does nothing.
    ve_formats::tokens_are_in_order();
    let mut tokens = Vec::new(alloc);
    let mut rest = line;
    let mut at = 0;
    while let Some((placed, behind)) = next_token(rest, at)? {
        tokens.push(placed)?;
        at = placed.end;
        rest = behind;
    }
    Ok(tokens)
}

/// The first token of a text whose first byte stands at `at`, and the text behind it. `None` where there is no token.
pub fn next_token<'a>(text: &'a [u8], at: u64) -> Result<Option<(Placed<'a>, &'a [u8])>, LexFault>
    requires { at + length text.now < 2 ^ 64 }
    ensures next { IfOk result (IsNextOf at text.now) }
    ensures fault { IfErr result (IsFaultOf at text.now) }
{
    let (separators, body) = bytes::split_separators(text);
    let start = at + separators.len() as u64;
    let Some((token, rest)) = first_token(body, start)? else {
        return Ok(None);
    };
    let end = start + (body.len() - rest.len()) as u64;
    Ok(Some((Placed { token, start, end }, rest)))
}

/// The token that a text begins with, and the text behind it. `None` at the end and at a comment.
fn first_token<'a>(text: &'a [u8], at: u64) -> Result<Option<(Token<'a>, &'a [u8])>, LexFault>
    requires { StartsWithout is_separator text.now }
    ensures front { IfOk result (IsFrontOf at text.now) }
    ensures fault { IfErr result (IsFaultOf at text.now) }
{
    let Some((first, rest)) = text.split_first() else {
        return Ok(None);
    };
    let first = *first;
    if first == b'#' {
        Ok(None)
    } else if bytes::is_symbol(first) {
        Ok(Some((Token::Symbol(first), rest)))
    } else if bytes::is_name_letter(first) {
        let (name, rest) = bytes::split_name(text);
        Ok(Some((Token::Name(name), rest)))
    } else if bytes::is_digit(first) {
        let (digits, rest) = bytes::split_digits(text);
        Ok(Some((number(digits, at)?, rest)))
    } else {
        Err(LexFault::BadByte { at })
    }
}

/// The number of these digits, which begin at `at`.
fn number<'a>(digits: &'a [u8], at: u64) -> Result<Token<'a>, LexFault>
    requires { IsTrue (list_all is_digit digits.now) }
    ensures ok { IfOk result (λ token. (token_of token ≡ number digits.now) × HasItsValue token) }
    ensures short { OnOk result (length digits.now ≤ most_digits) }
    ensures long { IfErr result (λ fault. (fault ≡ LexFault.LongNumber at) × (most_digits < length digits.now)) }
{
    if digits.len() > MOST_DIGITS {
        return Err(LexFault::LongNumber { at });
    }
    let value = bytes::number_value(digits);
    Ok(Token::Number {
        value,
        text: digits,
    })
}
