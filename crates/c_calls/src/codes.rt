//! What a call answers: 0, or why it did nothing.

/// Done.
pub const OK: u32 = 0;

/// The bytes spell no block.
pub const MALFORMED: u32 = 1;

/// The block's number isn't the height.
pub const WRONG_NUMBER: u32 = 2;

/// The previous hash isn't the last header hash.
pub const WRONG_PREVIOUS: u32 = 3;

/// The data hash isn't that of the transactions.
pub const WRONG_DATA_HASH: u32 = 4;

/// A block of version 1 behind one of version 2.
pub const OLD_VERSION: u32 = 5;

/// An allocation was refused.
pub const MEMORY: u32 = 6;

/// The handle is closed.
pub const CLOSED: u32 = 7;

/// A text isn't UTF-8.
pub const NO_TEXT: u32 = 8;

/// The text is no channel's.
pub const NO_CHANNEL: u32 = 9;

/// The text is no key book.
pub const NO_KEYS: u32 = 10;

/// A namespace or chaincode is no name, a key no key, an id no id.
pub const NO_NAME: u32 = 11;

/// There is no row, block, policy or use.
pub const NONE: u32 = 12;

/// A buffer is too small: what is needed was told.
pub const SMALL: u32 = 13;

/// Another handle shares the ledger, which takes no block until that one is closed.
pub const SHARED: u32 = 14;
