/// A check of one transaction of a block.
#[derive(Clone, Copy, Debug, PartialEq, Eq)]
pub enum Event {
    /// Its endorsement check.
    Endorse(u32),
    /// Its read check.
    Reads(u32),
}
