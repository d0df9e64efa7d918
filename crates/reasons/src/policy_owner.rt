/// Whose policy governs a key.
#[derive(Clone, Copy, Debug, PartialEq, Eq)]
pub enum PolicyOwner {
    /// The key has a policy of its own.
    OfKey,
    /// It has none, and the chaincode of its namespace has one.
    OfChaincode,
}
