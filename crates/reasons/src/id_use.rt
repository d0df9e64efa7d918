use rules::Flag;

/// Where a transaction id was used first, and the flag that this use was given.
#[derive(Clone, Copy, Debug, PartialEq, Eq)]
pub enum IdUse {
    /// In an accepted block.
    Earlier { block: u64, place: u32, flag: Flag },
    /// In the same block.
    Here { place: u32, flag: Flag },
}
