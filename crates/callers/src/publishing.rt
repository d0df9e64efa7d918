ghost use Rattle.std.specs.Prelude.{◌≡◌, length, IsTrue, IfOk};
ghost use Rattle.header_hash.specs.Hashes.{header_hash_of};
ghost use Rattle.rules.specs.Linked.{IsLinkedDelta};

use header_hash::header_hash;
use linking::{DecodedBlock, LinkedBlock};
use query::{PublishFault, Publisher, Receipt};
use rules::{CommittedBlock, Delta, Refused};
use std::alloc::Global;
use std::sync::Wait;
use world::World;

/// Whether a block is kept as what it is.
fn is_kept_of(kept: &CommittedBlock, block: &LinkedBlock<'_>) -> bool
    ensures { IsTrue result → (kept.now.header_hash ≡ header_hash_of block.now.header) × (kept.now.version ≡ block.now.version)
        × (length kept.now.flags ≡ length block.now.txs) }
{
    if kept.version != block.version() {
        return false;
    }
    kept.header_hash == header_hash(block.header()) && kept.flags.len() == block.txs().len()
}

/// Whether a world's next block is the delta's.
pub fn is_linked(alloc: Global, world: &World, delta: &Delta) -> Result<bool, Refused>
    ensures { IfOk result (λ linked. IsTrue linked → IsLinkedDelta world.now delta.now) }
{
    let kept = delta.block.get();
    let decoded = DecodedBlock::decode(alloc, kept.bytes.get().as_slice())?;
    let placed = decoded.at_place(world.height(), world.header_hash())?;
    let block = placed.linked(world.version())?;
    Ok(is_kept_of(kept, &block))
}

/// Publishes a delta that was made elsewhere, or nothing if it isn't the next one or a publish has failed.
pub fn publish_linked<R: Wait>(
    rt: &R,
    alloc: Global,
    publisher: &mut Publisher,
    delta: Delta,
) -> Result<Option<Receipt>, PublishFault> {
    if publisher.failed() {
        return Ok(None);
    }
    let Ok(true) = is_linked(alloc, publisher.published(), &delta) else {
        return Ok(None);
    };
    Ok(Some(publisher.publish(rt, delta)?))
}
