ghost use Rattle.std.specs.Prelude.{◌≡◌};
ghost use Rattle.block.specs.declared.fault.BlockFault.TheVariants.{Memory};

use std::alloc::{AllocError, AllocFailed};
use thiserror::Error;

/// Why bytes are no block: the fault of the first field, from left to right, that can't be read.
#[derive(Clone, Copy, Debug, PartialEq, Eq, Error)]
pub enum BlockFault {
    #[error("the bytes don't begin with the magic")]
    BadMagic,
    #[error("fewer bytes remain than the next field has")]
    Truncated,
    #[error("the previous hash has neither 0 nor 32 bytes")]
    PreviousLength,
    #[error("more than 4096 transactions")]
    TooManyTxs,
    #[error("a transaction of more than 1048576 bytes")]
    TxTooLong,
    #[error("bytes remain behind the last transaction")]
    TrailingBytes,
    #[error("out of memory")]
    Memory,
}

impl From<AllocError> for BlockFault {
    ghost from_gives = { λ _ e. e ≡ Memory };

    fn from(_e: AllocError) -> BlockFault {
        BlockFault::Memory
    }
}

impl<T: Drop> From<AllocFailed<T>> for BlockFault {
    ghost from_gives = { λ _ e. e ≡ Memory };

    fn from(_e: AllocFailed<T>) -> BlockFault {
        BlockFault::Memory
    }
}
