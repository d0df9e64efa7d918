//! Whether a block would have been accepted in the place of the accepted one of its number.
ghost use Rattle.std.specs.Prelude.{◌≡◌, ◌↔◌, IsTrue};
ghost use Rattle.std.specs.Option.{option_copied};
ghost use Rattle.rules.specs.Linked as linked;
ghost use Rattle.rules.specs.Linked.{HasDataHash};
ghost use Rattle.known_blocks.specs.Known as spec;

use block::{Block, BlockVersion, Previous};
use header_hash::data_hash;
use rules::CommittedBlock;
use world::World;

fn block_before(world: &World, number: u64) -> Option<&CommittedBlock>
    ensures { option_copied result ≡ spec.block_before world.now number }
{
    if number == 0 {
        None
    } else {
        world.block(number - 1)
    }
}

// What a block after this one has as its previous hash.
fn previous_from(before: Option<&CommittedBlock>) -> Previous
    ensures { result ≡ spec.previous_after (option_copied before.entry) }
{
    match before {
        None => Previous::Empty,
        Some(before) => Previous::Hash(before.header_hash),
    }
}

// The version of this block, and 1 if there is none.
fn version_of(before: Option<&CommittedBlock>) -> BlockVersion
    ensures { result ≡ spec.version_of (option_copied before.entry) }
{
    match before {
        None => BlockVersion::V1,
        Some(before) => before.version,
    }
}

fn is_older(version: BlockVersion, last: BlockVersion) -> bool
    ensures { result ≡ linked.is_older version last }
{
    version == BlockVersion::V1 && last == BlockVersion::V2
}

// Hashes the transactions: linear in their bytes.
fn has_data_hash(block: &Block<'_>) -> bool
    ensures { IsTrue result ↔ HasDataHash block.now }
{
    block.header.data_hash == data_hash(block.txs.as_slice())
}

/// Whether the block is linked to the accepted blocks before its number. Hashes its transactions if its previous hash
/// and its version are right: linear in their bytes. Takes no memory.
pub(crate) fn is_linked_in_place(world: &World, block: &Block<'_>) -> bool
    ensures { IsTrue result ↔ spec.IsLinkedInPlace world.now block.now }
{
    let before = block_before(world, block.header.number);
    let follows = block.header.previous == previous_from(before);
    let is_as_new = !is_older(block.version, version_of(before));
    follows && is_as_new && has_data_hash(block)
}
