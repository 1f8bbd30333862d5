//! The words that lines begin with.

ghost use Rattle.std.specs.Prelude.{◌≡◌};
ghost use Rattle.ve_theory.specs.Words.{same_letters};
ghost use Rattle.ve_formats.specs.LineReading.{keyword};
ghost use Rattle.ve_read.specs.Forms.{read_as};

/// The first word of a line, as far as lines tell it apart.
#[derive(Clone, Copy)]
pub(crate) enum Keyword {
    Version,
    Prime,
    Letter,
    Involution,
    Generators,
    Balance,
    Relation,
    Submodule,
    End,
    Nothing,
}

/// The keyword that a name is.
pub(crate) fn keyword_of(name: &[u8]) -> Keyword
    ensures { keyword name.now ≡ read_as result }
{
    if is_word(name, b"venum".as_slice()) {
        Keyword::Version
    } else if is_word(name, b"prime".as_slice()) {
        Keyword::Prime
    } else if is_word(name, b"letter".as_slice()) {
        Keyword::Letter
    } else if is_word(name, b"involution".as_slice()) {
        Keyword::Involution
    } else if is_word(name, b"module".as_slice()) {
        Keyword::Generators
    } else if is_word(name, b"balance".as_slice()) {
        Keyword::Balance
    } else if is_word(name, b"relation".as_slice()) {
        Keyword::Relation
    } else if is_word(name, b"sub".as_slice()) {
        Keyword::Submodule
    } else if is_word(name, b"end".as_slice()) {
        Keyword::End
    } else {
        Keyword::Nothing
    }
}

// Whether a name is a word.
fn is_word(name: &[u8], word: &[u8]) -> bool
    ensures { result ≡ same_letters name.now word.now }
{
    name == word
}
