use std::alloc::AllocFailed;
use thiserror::Error;

/// A token of a line, with its bytes.
#[derive(Clone, Copy, Debug, PartialEq, Eq)]
pub enum Token<'a> {
    Name(&'a [u8]),
    /// A number of at most 18 digits.
    Number { value: u64, text: &'a [u8] },
    Symbol(u8),
}

/// A token with its place in the line: where its first byte stands and where what follows it stands, counted from 0.
#[derive(Clone, Copy, Debug, PartialEq, Eq)]
pub struct Placed<'a> {
    pub token: Token<'a>,
    pub start: u64,
    pub end: u64,
}

/// The first fault of a line, with its place, or want of memory.
#[derive(Clone, Copy, Debug, PartialEq, Eq, Error)]
pub enum LexFault {
    #[error("byte {at} begins no token")]
    BadByte { at: u64 },
    #[error("number at byte {at} has more than 18 digits")]
    LongNumber { at: u64 },
    #[error("out of memory")]
    Memory,
}

impl<T: Drop> From<AllocFailed<T>> for LexFault {
    ghost use Rattle.std.specs.Prelude.{◌≡◌};
    ghost use Rattle.ve_lex.specs.declared.token.LexFault.TheVariants.{Memory};

    ghost from_gives = { λ _ fault. fault ≡ Memory };

    fn from(_refusal: AllocFailed<T>) -> LexFault {
        LexFault::Memory
    }
}
