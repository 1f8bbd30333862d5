//! Why a text is refused.

use std::alloc::AllocFailed;
use thiserror::Error;
use ve_lex::LexFault;
use ve_pres::{Limit, PresFault};
use ve_value::ValueFault;
use ve_word::{Memory, NameFault};

/// Why a line is refused.
#[derive(Clone, Copy, Debug, PartialEq, Eq, Error)]
pub enum Why {
    /// Never want of memory.
    #[error("{0}")]
    Lex(LexFault),
    #[error("more than 64 open parentheses")]
    TooDeep,
    #[error("this line is not expected here")]
    WrongLine,
    #[error("not a prime below 256")]
    BadPrime,
    #[error("name already taken")]
    NameTaken,
    #[error("weight not from 1 to 16")]
    BadWeight,
    #[error("unknown name")]
    UnknownName,
    #[error("exponent above 1000")]
    ExponentTooLarge,
    #[error("no inverse")]
    NoInverse,
    #[error("{0}")]
    Limit(Limit),
    #[error("end is missing")]
    MissingEnd,
    #[error("text after end")]
    AfterEnd,
    #[error("out of memory")]
    Memory,
}

/// The first line that is refused, counted from 1, and its first fault.
#[derive(Clone, Copy, Debug, PartialEq, Eq, Error)]
#[error("line {line}: {why}")]
pub struct ReadRefusal {
    pub line: u64,
    pub why: Why,
}

impl From<LexFault> for Why {
    ghost use Rattle.std.specs.Prelude.{◌≡◌};
    ghost use Rattle.ve_read.specs.Refusals.{of_lex_fault};

    ghost from_gives = { λ fault why. why ≡ of_lex_fault fault };

    fn from(fault: LexFault) -> Why {
        match fault {
            LexFault::Memory => Why::Memory,
            fault => Why::Lex(fault),
        }
    }
}

impl From<NameFault> for Why {
    ghost use Rattle.std.specs.Prelude.{◌≡◌};
    ghost use Rattle.ve_read.specs.Refusals.{of_name_fault};

    ghost from_gives = { λ fault why. why ≡ of_name_fault fault };

    fn from(fault: NameFault) -> Why {
        match fault {
            NameFault::Rooted | NameFault::Taken(_) => Why::NameTaken,
            NameFault::Full => Why::Limit(Limit::Letters),
            NameFault::Memory => Why::Memory,
        }
    }
}

impl From<PresFault> for Why {
    ghost use Rattle.std.specs.Prelude.{◌≡◌};
    ghost use Rattle.ve_read.specs.Refusals.{of_pres_fault};

    ghost from_gives = { λ fault why. why ≡ of_pres_fault fault };

    fn from(fault: PresFault) -> Why {
        match fault {
            PresFault::Limit(limit) => Why::Limit(limit),
            PresFault::Memory => Why::Memory,
        }
    }
}

impl From<ValueFault> for Why {
    ghost use Rattle.std.specs.Prelude.{◌≡◌};
    ghost use Rattle.ve_read.specs.Refusals.{of_value_fault};

    ghost from_gives = { λ fault why. why ≡ of_value_fault fault };

    fn from(fault: ValueFault) -> Why {
        match fault {
            ValueFault::UnknownName => Why::UnknownName,
            ValueFault::ExponentTooLarge => Why::ExponentTooLarge,
            ValueFault::NoInverse => Why::NoInverse,
            ValueFault::Limit(limit) => Why::Limit(limit),
            ValueFault::Memory => Why::Memory,
        }
    }
}

impl From<Memory> for Why {
    ghost use Rattle.std.specs.Prelude.{◌≡◌};
    ghost use Rattle.ve_read.specs.declared.why.Why.TheVariants.{Memory as Wanted};

    ghost from_gives = { λ _ why. why ≡ Wanted };

    fn from(_refusal: Memory) -> Why {
        Why::Memory
    }
}

impl<T: Drop> From<AllocFailed<T>> for Why {
    ghost use Rattle.std.specs.Prelude.{◌≡◌};
    ghost use Rattle.ve_read.specs.declared.why.Why.TheVariants.{Memory as Wanted};

    ghost from_gives = { λ _ why. why ≡ Wanted };

    fn from(_refusal: AllocFailed<T>) -> Why {
        Why::Memory
    }
}
