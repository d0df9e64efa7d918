/// The version of a block, which its first four bytes tell: what its places may have.
#[derive(Clone, Copy, Debug, PartialEq, Eq)]
pub enum BlockVersion {
    /// Transactions alone.
    V1,
    /// Updates of definitions too.
    V2,
}
