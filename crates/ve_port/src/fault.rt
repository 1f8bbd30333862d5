ghost use Rattle.std.specs.Prelude.{◌≡◌};
ghost use Rattle.ve_port.specs.declared.fault.OutFault.TheVariants.{Sink, Memory as NoMemory};

use thiserror::Error;
use ve_word::Memory;

/// A call of a source or of a sink failed.
#[derive(Clone, Copy, Debug, PartialEq, Eq, Error)]
#[error("stream failed")]
pub struct Failed;

/// Why a text was not written to its end.
#[derive(Clone, Copy, Debug, PartialEq, Eq, Error)]
pub enum OutFault {
    #[error("output failed")]
    Sink,
    #[error("out of memory")]
    Memory,
}

impl From<Failed> for OutFault {
    ghost from_gives = { λ _ fault. fault ≡ Sink };

    fn from(_failure: Failed) -> OutFault {
        OutFault::Sink
    }
}

impl From<Memory> for OutFault {
    ghost from_gives = { λ _ fault. fault ≡ NoMemory };

    fn from(_want: Memory) -> OutFault {
        OutFault::Memory
    }
}
