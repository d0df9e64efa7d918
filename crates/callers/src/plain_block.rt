use channel::Configuration;
use plain::{NextBlock, World, take_block};
use policy_eval::Verify;
use rules::Flag;
use std::alloc::{AllocError, Global};

// The most items of a list that are counted.
const MOST: usize = 0xffff_ffff;

/// The flags of the next block, or none if it has more transactions than are counted.
pub fn flags_of<V: Verify>(
    alloc: Global,
    channel: &Configuration,
    verifier: &V,
    world: &mut World,
    block: &NextBlock<'_, '_>,
) -> Result<Option<Vec<Flag>>, AllocError> {
    if block.txs.len() > MOST {
        return Ok(None);
    }
    Ok(Some(take_block(alloc, channel, verifier, world, block)?))
}
