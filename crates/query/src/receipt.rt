use crate::front::Front;
use rules::Flag;
use values::{Hash, Items};

/// Says which block was published, and knows the list up to it. Any number of handles may learn it, in any threads.
#[derive(Drop)]
pub struct Receipt {
    /// The block's number.
    pub number: u64,
    /// The height after it.
    pub height: u64,
    /// SHA-256 of the header's DER bytes.
    pub header_hash: Hash,
    /// SHA-256 of the commit hash before it, or of 32 zeros, followed by the block's version, number, flags and changes.
    pub commit_hash: Hash,
    /// One for each transaction, in order.
    pub flags: Items<Flag>,
    pub front: Front,
}
