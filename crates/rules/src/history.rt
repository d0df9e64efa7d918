use transaction::{TxId, Version};
use values::Part;

/// A value write or a delete of a key, by a valid transaction.
#[derive(Debug, Drop)]
pub struct HistoryEntry {
    /// The place of the transaction.
    pub version: Version,
    /// The transaction's id.
    pub id: TxId,
    /// The value, or none where the key was deleted.
    pub value: Option<Part>,
}
