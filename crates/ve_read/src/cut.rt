//! Where a text is cut behind its line `end`.

ghost use Rattle.std.specs.Prelude.{◌≡◌, ℕ, ◌↔◌, ◌≤◌, List, IsTrue, length};
ghost use Rattle.ve_read.specs.Cutting.{IsEndLine, IsSplitAt};

use ve_lex::{Token, next_line, next_token};

/// The place behind the first line whose only token is the name `end`, or the length of the text where there is no such line.
pub fn split(text: &[u8]) -> usize
    ensures place { IsSplitAt text.now result }
    ensures within { result ≤ length text.now }
{
    let mut rest = text;
    while let Some((line, behind)) = next_line(rest) {
        if is_end(line) {
            return text.len() - behind.len();
        }
        rest = behind;
    }
    text.len()
}

// Whether the only token of a line is the name `end`.
fn is_end(line: &[u8]) -> bool
    ensures { IsTrue result ↔ IsEndLine line.now }
{
    // A law that both directions are drawn from. It does nothing.
    ve_formats::line_lexes_once();
    let Ok(Some((first, behind))) = next_token(line, 0) else {
        return false;
    };
    let Token::Name(name) = first.token else {
        return false;
    };
    if name != b"end".as_slice() {
        return false;
    }
    let Ok(next) = next_token(behind, first.end) else {
        return false;
    };
    next.is_none()
}

/// A text is cut at one place alone. The contract of a function that does nothing.
pub fn texts_are_cut_once()
    ensures { (text : List ℕ) (at other : ℕ) → at ≤ length text → other ≤ length text → IsSplitAt text at → IsSplitAt text other → at ≡ other }
{}
