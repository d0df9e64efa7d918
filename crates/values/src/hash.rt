/// The bytes of a SHA-256 hash (FIPS 180-4).
pub const HASH_BYTES: usize = 32;

/// A SHA-256 hash.
pub type Hash = [u8; HASH_BYTES];
