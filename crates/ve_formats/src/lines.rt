//! Laws of lines. Each is the contract of a function that does nothing.

ghost use Rattle.std.specs.Prelude.{◌≡◌, ℕ, List, All, IsTrue, nat_eq, not};
ghost use Rattle.std.specs.List.{list_all};
ghost use Rattle.ve_formats.specs.Lines.{lines_of, text_of_lines, line_feed};

/// A text that is put together from lines without line feeds has these lines.
pub fn text_of_lines_has_them()
    ensures { (lines : List (List ℕ)) → All (λ line. IsTrue (list_all (λ b. not (nat_eq b line_feed)) line)) lines → lines_of (text_of_lines lines) ≡ lines }
{}
