//! The signs of expressions.

ghost use Rattle.ve_value.specs.Signs.{IsSignOf};

/// A symbol, as far as expressions tell it apart.
#[derive(Clone, Copy, PartialEq, Eq)]
pub(crate) enum Sign {
    Plus,
    Minus,
    Times,
    Power,
    Open,
    Close,
    Other,
}

/// The sign that a byte is.
pub(crate) fn sign_of(byte: u8) -> Sign
    ensures { IsSignOf byte result }
{
    match byte {
        b'+' => Sign::Plus,
        b'-' => Sign::Minus,
        b'*' => Sign::Times,
        b'^' => Sign::Power,
        b'(' => Sign::Open,
        b')' => Sign::Close,
        _ => Sign::Other,
    }
}
