use std::alloc::AllocError;
use thiserror::Error;

/// Why the words give no command.
#[derive(Clone, Copy, Debug, PartialEq, Eq, Error)]
pub enum WordsFault {
    /// They mean none.
    #[error("no such command")]
    Refused,
    /// Want of memory.
    #[error("out of memory")]
    Memory,
}

impl From<AllocError> for WordsFault {
    ghost use Rattle.std.specs.Prelude.{◌≡◌};
    ghost use Rattle.ve_words.specs.declared.fault.WordsFault.TheVariants.{Memory as Wanted};

    ghost from_gives = { λ _ fault. fault ≡ Wanted };

    fn from(_refusal: AllocError) -> WordsFault {
        WordsFault::Memory
    }
}
