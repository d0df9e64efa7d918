use crate::flag::Flag;
use transaction::BlockVersion;
use values::{Bytes, Hash, Items, Shared};

/// An accepted block as a ledger keeps it.
#[derive(Debug, Drop)]
pub struct CommittedBlock {
    /// The bytes that were handed in. The keys and values that the block writes are mostly parts of them.
    pub bytes: Shared<Bytes>,
    /// SHA-256 of the header's DER bytes.
    pub header_hash: Hash,
    /// SHA-256 of the commit hash before it, followed by what the block changes.
    pub commit_hash: Hash,
    /// As its first four bytes tell it.
    pub version: BlockVersion,
    /// One for each transaction, in order.
    pub flags: Items<Flag>,
}
