/// The bytes of a transaction's id: SHA-256 in hexadecimal digits.
pub const ID_BYTES: usize = 64;

/// The most endorsements of a transaction.
pub const MAX_ENDORSEMENTS: usize = 64;

/// The most bytes of a transaction.
pub const MAX_TX_BYTES: usize = 1_048_576;
