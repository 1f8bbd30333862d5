//! Texts, line by line.

ghost use Rattle.std.specs.Prelude.{◌≡◌, ◌≢◌, ◌↔◌, ℕ, ◌+◌, List, IfOk, IfSome, IsTrue, MatchOption, MatchResult, Result, map};
ghost use Rattle.ve_formats.specs.PresentationLines as lines;
ghost use Rattle.ve_formats.specs.PresentationLines.{Line};
ghost use Rattle.ve_formats.specs.PresentationText.{Accepts, IsRefusedAt, IsTooDeep, Refuses, Spells, is_sign};
ghost use Rattle.ve_formats.specs.Tokens.{Lexes};
ghost use Rattle.ve_lex.specs.Lexed.{IsFaultOf, placed_of, token_of};
ghost use Rattle.ve_value.specs.Shapes.{AreWritten, tokens_in};
ghost use Rattle.ve_read.specs.Forms.{IsFormOf};
ghost use Rattle.ve_read.specs.Drafts.{IsKept, Takes, TakesLine, draft_of};
ghost use Rattle.ve_read.specs.Refusals.{Tells};

use crate::draft::Draft;
use crate::form::{Form, form_of};
use crate::{ReadRefusal, Why};
use std::alloc::Global;
use ve_lex::{LexFault, Placed, Token, next_line, tokens};
use ve_pres::Presentation;

/// The most parentheses that may be open.
const MOST_OPEN: u64 = 64;

/// The presentation that a text spells, or the first line that is refused, with its first fault.
pub fn read(alloc: Global, text: &[u8]) -> Result<Presentation, ReadRefusal>
    ensures { MatchResult result (λ P. Spells text.now P.presentation)
        (λ refusal. Tells (IsRefusedAt text.now refusal.line) refusal.why) }
{
    let mut draft = Draft::Blank;
    let mut rest = text;
    let mut line = 1;
    while let Some((front, behind)) = next_line(rest) {
        draft = match take_line(alloc, draft, front) {
            Ok(next) => next,
            Err(why) => return Err(ReadRefusal { line, why }),
        };
        rest = behind;
        line += 1;
    }
    match draft.finish() {
        Some(presentation) => Ok(presentation),
        None => Err(ReadRefusal {
            line,
            why: Why::MissingEnd,
        }),
    }
}

// The draft behind a line.
fn take_line(alloc: Global, draft: Draft, line: &[u8]) -> Result<Draft, Why>
    requires { IsKept draft }
    ensures { TakesLine (draft_of draft) line.now result }
{
    match tokens(alloc, line) {
        Ok(tokens) => take_tokens(alloc, draft, &tokens),
        Err(fault) => Err(faulty(fault, draft.is_ended())),
    }
}

// Why a line with a fault of tokens is refused.
fn faulty(fault: LexFault, ended: bool) -> Why
    ensures { (draft : lines.Draft) (line : List ℕ) → (IsTrue ended ↔ (draft.stage ≡ lines.after_end))
        → (fault ≢ LexFault.Memory → IsFaultOf 0 line fault) → Tells (Refuses draft line) result }
{
    match fault {
        LexFault::Memory => Why::Memory,
        LexFault::BadByte { .. } | LexFault::LongNumber { .. } => {
            if ended {
                Why::AfterEnd
            } else {
                Why::Lex(fault)
            }
        }
    }
}

// The draft behind a line of these tokens.
fn take_tokens(alloc: Global, draft: Draft, tokens: &[Placed]) -> Result<Draft, Why>
    requires kept { IsKept draft }
    requires written { AreWritten tokens.now }
    ensures { (line : List ℕ) → Lexes 0 line (map placed_of tokens.now) → TakesLine (draft_of draft) line result }
{
    match line_form(tokens, draft.is_ended())? {
        Some(form) => draft.take(alloc, form),
        None => Ok(draft),
    }
}

// The form of a line of these tokens. `None` where there is no token.
fn line_form<'a, 't>(tokens: &'t [Placed<'a>], ended: bool) -> Result<Option<Form<'a, 't>>, Why>
    requires { AreWritten tokens.now }
    ensures formed { IfOk result (λ there. IfSome there (λ form. (meant : Line) × IsFormOf form meant)) }
    ensures judged { (draft : lines.Draft) (line : List ℕ) → (IsTrue ended ↔ (draft.stage ≡ lines.after_end)) → Lexes 0 line (map placed_of tokens.now)
        → MatchResult result
        (λ there. MatchOption there (Accepts draft line draft)
        (λ form. (meant : Line) × IsFormOf form meant × ((next : Result Draft Why) → Takes draft meant next → TakesLine draft line next)))
        (Tells (Refuses draft line)) }
{
    // A law by which forms are those of lines. It does nothing.
    ve_formats::readers_read_what_is_spelled();
    if tokens.is_empty() {
        return Ok(None);
    }
    if ended {
        return Err(Why::AfterEnd);
    }
    if is_too_deep(tokens) {
        return Err(Why::TooDeep);
    }
    let Some(form) = form_of(tokens) else {
        return Err(Why::WrongLine);
    };
    Ok(Some(form))
}

// Whether more parentheses are open somewhere than may be.
fn is_too_deep(tokens: &[Placed]) -> bool
    ensures { IsTrue result ↔ IsTooDeep (tokens_in tokens.now) }
{
    let mut opened = 0;
    let mut closed = 0;
    for placed in tokens {
        opened += u64::from(is_sign(placed, b'('));
        closed += u64::from(is_sign(placed, b')'));
        if opened > closed + MOST_OPEN {
            return true;
        }
    }
    false
}

// Whether the token is a sign.
fn is_sign(placed: &Placed, sign: u8) -> bool
    ensures { result ≡ is_sign sign (token_of placed.now.token) }
{
    match placed.token {
        Token::Name(_) => false,
        Token::Number { .. } => false,
        Token::Symbol(byte) => byte == sign,
    }
}
