//! The plain committer, which has no cleverness.

use crate::fixture::channel_with;
use block::{Block, MAX_TXS};
use channel::Configuration;
use policy_eval::Verify;
use rules::Flag;
use std::alloc::{AllocError, Global};
use test_support::Failed;
use values::Items;

/// It with the channel's configuration.
#[derive(Drop)]
pub struct PlainPeer {
    channel: Configuration,
    pub world: plain::World,
}

impl PlainPeer {
    /// Of the channel that has this line more.
    pub fn open(alloc: Global, line: &str) -> Result<PlainPeer, Failed> {
        let (channel, definitions) = channel_with(alloc, line)?.into_parts();
        Ok(PlainPeer {
            channel,
            world: plain::World::new(alloc, definitions),
        })
    }

    /// The flags of the next block, which it takes.
    pub fn flags_of<V: Verify>(
        &mut self,
        alloc: Global,
        block: &Block<'_>,
        verifier: &V,
    ) -> Result<Items<Flag>, AllocError> {
        let txs = block.txs.as_slice();
        // no block has more
        if txs.len() > MAX_TXS {
            return Ok(Items::new(alloc));
        }
        let next = plain::NextBlock {
            number: block.header.number,
            version: block.version,
            txs,
        };
        let flags = plain::take_block(alloc, &self.channel, verifier, &mut self.world, &next)?;
        Ok(Items::from_vec(flags))
    }
}
