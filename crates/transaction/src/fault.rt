ghost use Rattle.std.specs.Prelude.{◌≡◌};
ghost use Rattle.transaction.specs.declared.fault.EncodeFault.TheVariants as encoding;
ghost use Rattle.transaction.specs.declared.fault.TxFault.TheVariants.{Memory};

use std::alloc::AllocError;
use thiserror::Error;

/// Why bytes are no transaction or no identity.
#[derive(Clone, Copy, Debug, PartialEq, Eq, Error)]
pub enum TxFault {
    #[error("the bytes have another form")]
    Form,
    #[error("out of memory")]
    Memory,
}

impl From<AllocError> for TxFault {
    ghost from_gives = { λ _ e. e ≡ Memory };

    fn from(_e: AllocError) -> TxFault {
        TxFault::Memory
    }
}

/// Why a value has no bytes.
#[derive(Clone, Copy, Debug, PartialEq, Eq, Error)]
pub enum EncodeFault {
    #[error("too large to be spelled")]
    TooLarge,
    #[error("out of memory")]
    Memory,
}

impl From<AllocError> for EncodeFault {
    ghost from_gives = { λ _ e. e ≡ encoding.Memory };

    fn from(_e: AllocError) -> EncodeFault {
        EncodeFault::Memory
    }
}
