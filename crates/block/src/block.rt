use transaction::BlockVersion;
use values::{Hash, Items, Slice};

pub(crate) const MAGIC_1: [u8; 4] = *b"FBK1";

pub(crate) const MAGIC_2: [u8; 4] = *b"FBK2";

/// The most transactions of a block.
pub const MAX_TXS: usize = 4096;

/// The header hash of the block before, or nothing at block 0.
#[derive(Clone, Copy, Debug, PartialEq, Eq)]
pub enum Previous {
    Empty,
    Hash(Hash),
}

/// What a block's header hash covers.
#[derive(Clone, Copy, Debug, PartialEq, Eq)]
pub struct Header {
    pub number: u64,
    pub previous: Previous,
    pub data_hash: Hash,
}

/// A version, a header, and the bytes of each transaction in order, borrowed.
#[derive(Drop)]
pub struct Block<'a> {
    /// The header's hash doesn't cover it.
    pub version: BlockVersion,
    pub header: Header,
    pub txs: Items<Slice<'a>>,
}
