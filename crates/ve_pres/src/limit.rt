//! What a presentation and the values in it are refused for.

ghost use Rattle.std.specs.Prelude.{◌≡◌, ◌<◌, ◌≤◌, MatchResult, OnOk};
ghost use Rattle.ve_theory.specs.Validity.{most_length, most_terms};
ghost use Rattle.ve_pres.specs.Limits.{product_limit, sum_limit};

use std::alloc::{AllocError, AllocFailed};
use thiserror::Error;
use ve_word::Memory;

/// The greatest number of terms of a sum or product, before terms of one word are added up.
pub(crate) const MOST_TERMS: usize = 4096;

/// The greatest number of letters of a word.
pub(crate) const MOST_LENGTH: u32 = 1000;

/// A limit that is exceeded.
#[derive(Clone, Copy, Debug, PartialEq, Eq, Error)]
pub enum Limit {
    #[error("more than 32 letters")]
    Letters,
    #[error("more than 255 module generators")]
    Roots,
    #[error("more than 4096 relations")]
    Relations,
    #[error("{count} terms, more than 4096")]
    Terms { count: u64 },
    #[error("word of length {length}, more than 1000")]
    Length { length: u32 },
    #[error("{cells} cells, more than 8388608")]
    Cells { cells: u64 },
}

/// Why a value or a relation is refused.
#[derive(Clone, Copy, Debug, PartialEq, Eq, Error)]
pub enum PresFault {
    #[error("{0}")]
    Limit(Limit),
    #[error("out of memory")]
    Memory,
}

impl From<Limit> for PresFault {
    ghost use Rattle.std.specs.Prelude.{◌≡◌};
    ghost use Rattle.ve_pres.specs.declared.limit.PresFault.TheVariants.{Limit as Exceeds};

    ghost from_gives = { λ limit fault. fault ≡ Exceeds limit };

    fn from(limit: Limit) -> PresFault {
        PresFault::Limit(limit)
    }
}

impl From<Memory> for PresFault {
    ghost use Rattle.std.specs.Prelude.{◌≡◌};
    ghost use Rattle.ve_pres.specs.declared.limit.PresFault.TheVariants.{Memory as Wanted};

    ghost from_gives = { λ _ fault. fault ≡ Wanted };

    fn from(_refusal: Memory) -> PresFault {
        PresFault::Memory
    }
}

impl From<AllocError> for PresFault {
    ghost use Rattle.std.specs.Prelude.{◌≡◌};
    ghost use Rattle.ve_pres.specs.declared.limit.PresFault.TheVariants.{Memory as Wanted};

    ghost from_gives = { λ _ fault. fault ≡ Wanted };

    fn from(_refusal: AllocError) -> PresFault {
        PresFault::Memory
    }
}

/// Whether elements that have `terms` terms together may be added.
pub(crate) fn check_sum(terms: usize) -> Result<(), Limit>
    ensures judged { MatchResult result (λ _. sum_limit terms ≡ None) (λ limit. sum_limit terms ≡ Some limit) }
    ensures terms { OnOk result (terms ≤ most_terms) }
{
    if terms > MOST_TERMS {
        return Err(Limit::Terms {
            count: terms as u64,
        });
    }
    Ok(())
}

/// Whether elements may be multiplied, `terms` being the product of their numbers of terms and `length` the sum of their lengths.
pub(crate) fn check_product(terms: usize, length: u32) -> Result<(), Limit>
    ensures judged { MatchResult result (λ _. product_limit terms length ≡ None) (λ limit. product_limit terms length ≡ Some limit) }
    ensures terms { OnOk result (terms ≤ most_terms) }
    ensures length { OnOk result (0 < terms → length ≤ most_length) }
{
    check_sum(terms)?;
    if terms > 0 && length > MOST_LENGTH {
        return Err(Limit::Length { length });
    }
    Ok(())
}
