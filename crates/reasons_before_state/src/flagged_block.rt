use channel::Configuration;
use rules::Flag;
use transaction::{BlockVersion, TxId};
use world::World;

/// A block whose flags are known, over the world before it: what the reasons of all its places share.
#[derive(Drop)]
pub struct FlaggedBlock<'r> {
    /// The channel whose rules hold.
    pub channel: &'r Configuration,
    /// What the blocks before it made.
    pub world: &'r World,
    /// The version of the block's bytes.
    pub version: BlockVersion,
    /// The id that each place uses, if it uses one.
    pub ids: &'r [Option<TxId>],
    /// The flag of each place.
    pub flags: &'r [Flag],
}
