use crate::queried_range::QueriedRange;
use transaction::Version;
use values::Key;

/// The first key of the first range of a transaction that doesn't hold, where what was read and what is
/// there differ.
#[derive(Debug, Drop)]
pub struct PhantomKey {
    pub range: QueriedRange,
    /// Whether the query was read to its end.
    pub exhausted: bool,
    pub key: Key,
    /// As the query found it, or none where the key was absent.
    pub read: Option<Version>,
    /// What is there once the valid transactions before are applied, or none where the key is absent.
    pub there: Option<Version>,
    /// The place of the last valid transaction before, in the same block, that wrote or deleted the key's row, if one did.
    pub writer: Option<u32>,
}
