/// How a key made a transaction invalid.
#[derive(Clone, Copy, Debug, PartialEq, Eq)]
pub enum Kind {
    /// It was read, and its version isn't the one that was read.
    StaleRead,
    /// A range differs at it from what was read.
    Phantom,
    /// It is written, and the signers don't satisfy its own policy.
    OwnPolicy,
    /// It is written, and its policy was written earlier in the block.
    PolicyTouched,
}
