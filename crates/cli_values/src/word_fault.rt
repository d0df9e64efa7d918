ghost use Rattle.std.specs.Prelude.{◌≡◌};
ghost use Rattle.cli_values.specs.declared.word_fault.WordFault.TheVariants.{Memory};

use std::alloc::AllocError;
use thiserror::Error;

/// Why an option's text gives no bytes, key, id or name.
#[derive(Clone, Copy, Debug, PartialEq, Eq, Error)]
pub enum WordFault {
    /// It is no word, the word of no key or id, or no name.
    #[error("bad word")]
    NotAWord,
    #[error("out of memory")]
    Memory,
}

impl From<AllocError> for WordFault {
    ghost from_gives = { λ _ fault. fault ≡ Memory };

    fn from(_error: AllocError) -> Self {
        WordFault::Memory
    }
}
