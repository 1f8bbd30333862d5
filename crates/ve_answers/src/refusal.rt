ghost use Rattle.std.specs.Prelude.{◌≡◌};

use std::alloc::{AllocError, AllocFailed};
use thiserror::Error;
use ve_word::Memory;

/// Why a text was not read as an answer.
#[derive(Clone, Copy, Debug, PartialEq, Eq, Error)]
pub enum AnswerRefusal {
    /// The first line, counted from 1, that doesn't have the form that its place asks for; one past the last line where
    /// the text ends too early.
    #[error("line {line} is not an answer's")]
    Line { line: u64 },
    /// A growth was refused.
    #[error("out of memory")]
    Memory,
}

impl From<Memory> for AnswerRefusal {
    ghost use Rattle.ve_answers.specs.declared.refusal.AnswerRefusal.TheVariants.{Memory as NoMemory};

    ghost from_gives = { λ _ refusal. refusal ≡ NoMemory };

    fn from(_want: Memory) -> AnswerRefusal {
        AnswerRefusal::Memory
    }
}

impl From<AllocError> for AnswerRefusal {
    ghost use Rattle.ve_answers.specs.declared.refusal.AnswerRefusal.TheVariants.{Memory as NoMemory};

    ghost from_gives = { λ _ refusal. refusal ≡ NoMemory };

    fn from(_refusal: AllocError) -> AnswerRefusal {
        AnswerRefusal::Memory
    }
}

impl<T: Drop> From<AllocFailed<T>> for AnswerRefusal {
    ghost use Rattle.ve_answers.specs.declared.refusal.AnswerRefusal.TheVariants.{Memory as NoMemory};

    ghost from_gives = { λ _ refusal. refusal ≡ NoMemory };

    fn from(_refusal: AllocFailed<T>) -> AnswerRefusal {
        AnswerRefusal::Memory
    }
}
