ghost use Rattle.std.specs.Prelude.{◌≡◌};
ghost use Rattle.rules.specs.declared.answer.Refused.TheVariants.{Memory};

use crate::flag::Flag;
use block::BlockFault;
use std::alloc::AllocError;
use thiserror::Error;
use values::{Hash, Items};

/// What is answered to a block that is accepted.
#[derive(Debug, Drop)]
pub struct Accepted {
    /// The block's number: the height before it.
    pub number: u64,
    /// SHA-256 of the header's DER bytes.
    pub header_hash: Hash,
    /// SHA-256 of the commit hash before it, followed by what the block changes.
    pub commit_hash: Hash,
    /// One for each transaction, in order.
    pub flags: Items<Flag>,
}

/// Why a string of bytes isn't accepted as the next block. Of the first five the first that holds is
/// answered. Want of memory may come in the place of any of them, or of an acceptance; that it comes
/// only where a growth was refused is tested, no clause says it.
#[derive(Clone, Copy, Debug, PartialEq, Eq, Error)]
pub enum Refused {
    /// The bytes are no block.
    #[error("no block: {0}")]
    Malformed(BlockFault),
    /// The block's number isn't the height.
    #[error("block {got} where block {want} is next")]
    WrongNumber { want: u64, got: u64 },
    /// The previous hash isn't the last header hash, or at block 0 isn't empty.
    #[error("not the header hash of the block before")]
    WrongPrevious,
    /// The data hash isn't that of the transactions.
    #[error("not the data hash of the transactions")]
    WrongDataHash,
    /// The block is of version 1, and the last accepted one is of version 2.
    #[error("a block of version 1 behind one of version 2")]
    OldVersion,
    /// A growth was refused before anything changed.
    #[error("out of memory")]
    Memory,
}

impl From<AllocError> for Refused {
    ghost from_gives = { λ _ e. e ≡ Memory };

    fn from(_e: AllocError) -> Refused {
        Refused::Memory
    }
}
