ghost use Rattle.std.specs.Prelude.{◌≡◌};
ghost use Rattle.key_book.specs.declared.fault.KeyBookFault.TheVariants.{Memory};

use std::alloc::{AllocError, AllocFailed};
use thiserror::Error;

/// Why a text is no key book.
#[derive(Clone, Copy, Debug, PartialEq, Eq, Error)]
pub enum KeyBookFault {
    /// The number, from 1, of the first line that is no entry or whose identity has one already.
    #[error("line {0}")]
    Line(u64),
    #[error("out of memory")]
    Memory,
}

impl From<AllocError> for KeyBookFault {
    ghost from_gives = { λ _ e. e ≡ Memory };

    fn from(_e: AllocError) -> KeyBookFault {
        KeyBookFault::Memory
    }
}

impl<T: Drop> From<AllocFailed<T>> for KeyBookFault {
    ghost from_gives = { λ _ e. e ≡ Memory };

    fn from(_e: AllocFailed<T>) -> KeyBookFault {
        KeyBookFault::Memory
    }
}
