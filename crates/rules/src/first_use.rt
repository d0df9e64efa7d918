use crate::flag::Flag;

/// Where a transaction id was used first, and that transaction's flag.
#[derive(Clone, Copy, Debug, PartialEq, Eq)]
pub struct FirstUse {
    pub block: u64,
    pub place: u32,
    pub flag: Flag,
}
