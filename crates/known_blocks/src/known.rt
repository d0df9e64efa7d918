use values::Hash;

/// How a block is related to the accepted block of its number.
#[derive(Clone, Copy, Debug, PartialEq, Eq)]
pub enum KnownAs {
    /// Byte for byte that block.
    Same,
    /// Another one of the same header hash, which would have been accepted in its place: version or bounds of
    /// transactions differ.
    Twin,
    /// One of another header hash, which would have been accepted in its place.
    Fork,
    /// None of these: it would not have been accepted there.
    Other,
}

/// A block whose number was accepted.
#[derive(Clone, Copy, Debug, PartialEq, Eq)]
pub struct Known {
    /// Of both blocks.
    pub number: u64,
    pub how: KnownAs,
    /// The header hash of the accepted block.
    pub accepted: Hash,
    /// The header hash of the other one.
    pub own: Hash,
}
