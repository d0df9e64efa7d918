//! What the process ends with.

/// Every block was accepted or shown, a block was drafted, or help was asked for.
pub const ACCEPTED: u8 = 0;

/// A block was refused, or a file that is to be shown is no block.
pub const REFUSED: u8 = 1;

/// The words are no command, one is a bad word, or the transaction to explain isn't there.
pub const USAGE: u8 = 2;

/// A file or standard output is at fault.
pub(crate) const FILE_FAULT: u8 = 3;

/// Memory ran out.
pub(crate) const MEMORY: u8 = 4;
