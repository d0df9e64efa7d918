use transaction::Version;
use values::{Key, Name};

/// The first read of a transaction that doesn't hold.
#[derive(Debug, Drop)]
pub struct StaleRead {
    pub namespace: Name,
    pub key: Key,
    /// What was read, or none where the key was absent.
    pub read: Option<Version>,
    /// What is there once the valid transactions before are applied, or none where the key is absent.
    pub there: Option<Version>,
    /// The place of the last valid transaction before, in the same block, that wrote or deleted the key's row, if one did.
    pub writer: Option<u32>,
}
