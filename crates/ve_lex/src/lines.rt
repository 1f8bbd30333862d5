ghost use Rattle.std.specs.Prelude.{◌≡◌, ◌↔◌, [], ◌∷◌, IsNone, IfSome, position, nat_eq};
ghost use Rattle.ve_formats.specs.Lines.{lines_of, line_feed};
ghost use Rattle.ve_lex.specs.Cut.{IsCutAt};

/// Cuts off the first line of a text: the line without its line feed, and the text behind it.
/// `None` at the end of the text.
pub fn next_line(text: &[u8]) -> Option<(&[u8], &[u8])>
    ensures none { IsNone result ↔ (text.now ≡ []) }
    ensures lines { IfSome result (λ cut. lines_of text.now ≡ cut.0.now ∷ lines_of cut.1.now) }
    ensures places { IfSome result (λ cut. IsCutAt text.now cut.0.now cut.1.now) }
{
    if text.is_empty() {
        return None;
    }
    match line_feed_in(text) {
        Some(at) => Some((&text[..at], &text[at + 1..])),
        None => Some((text, &text[text.len()..])),
    }
}

/// Where the first line feed of a text stands.
fn line_feed_in(text: &[u8]) -> Option<usize>
    ensures { result ≡ position (λ b. nat_eq b line_feed) text.now }
{
    text.iter().position(|b| *b == b'\n')
}
