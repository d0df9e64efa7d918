ghost use Rattle.std.specs.Prelude.{◌≡◌};
ghost use Rattle.drafts.specs.declared.fault.DraftFault.TheVariants.{Memory};

use std::alloc::{AllocError, AllocFailed};
use thiserror::Error;

/// Why a script makes no block.
#[derive(Clone, Copy, Debug, PartialEq, Eq, Error)]
pub enum DraftFault {
    /// The number, from 1, of the first faulty line: one that isn't allowed there, or the line with which a transaction
    /// or an update began that is too long and ended before each such line.
    #[error("line {0}")]
    Line(u64),
    #[error("out of memory")]
    Memory,
}

impl From<AllocError> for DraftFault {
    ghost from_gives = { λ _ e. e ≡ Memory };

    fn from(_e: AllocError) -> DraftFault {
        DraftFault::Memory
    }
}

impl<T: Drop> From<AllocFailed<T>> for DraftFault {
    ghost from_gives = { λ _ e. e ≡ Memory };

    fn from(_e: AllocFailed<T>) -> DraftFault {
        DraftFault::Memory
    }
}
