//! Why an expression has no value.

use std::alloc::AllocFailed;
use thiserror::Error;
use ve_pres::{Limit, PresFault};
use ve_word::Memory;

/// Why an expression has no value in a presentation.
#[derive(Clone, Copy, Debug, PartialEq, Eq, Error)]
pub enum ValueFault {
    #[error("unknown name")]
    UnknownName,
    #[error("exponent above 1000")]
    ExponentTooLarge,
    #[error("no inverse")]
    NoInverse,
    #[error("{0}")]
    Limit(Limit),
    #[error("out of memory")]
    Memory,
}

impl From<PresFault> for ValueFault {
    ghost use Rattle.std.specs.Prelude.{◌≡◌};
    ghost use Rattle.ve_value.specs.Faults.{of_pres_fault};

    ghost from_gives = { λ fault why. why ≡ of_pres_fault fault };

    fn from(fault: PresFault) -> ValueFault {
        match fault {
            PresFault::Limit(limit) => ValueFault::Limit(limit),
            PresFault::Memory => ValueFault::Memory,
        }
    }
}

impl From<Memory> for ValueFault {
    ghost use Rattle.std.specs.Prelude.{◌≡◌};
    ghost use Rattle.ve_value.specs.declared.fault.ValueFault.TheVariants.{Memory as Wanted};

    ghost from_gives = { λ _ why. why ≡ Wanted };

    fn from(_refusal: Memory) -> ValueFault {
        ValueFault::Memory
    }
}

impl<T: Drop> From<AllocFailed<T>> for ValueFault {
    ghost use Rattle.std.specs.Prelude.{◌≡◌};
    ghost use Rattle.ve_value.specs.declared.fault.ValueFault.TheVariants.{Memory as Wanted};

    ghost from_gives = { λ _ why. why ≡ Wanted };

    fn from(_refusal: AllocFailed<T>) -> ValueFault {
        ValueFault::Memory
    }
}
