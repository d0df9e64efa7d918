ghost use Rattle.std.specs.Prelude.{◌≡◌};
ghost use Rattle.block.specs.Grammar.{Spells, bytes_of};
ghost use Rattle.header_hash.specs.Hashes.{header_hash_of};
ghost use Rattle.known_blocks.specs.Known.{IsKnownAs, IsBeside, IsSaid};

use crate::in_place::is_linked_in_place;
use crate::known::{Known, KnownAs};
use block::Block;
use header_hash::header_hash;
use rules::CommittedBlock;
use values::Hash;
use world::World;

// Of a block with these bytes and this header hash, beside the accepted block of its number.
fn relation(
    world: &World,
    accepted: &CommittedBlock,
    bytes: &[u8],
    block: &Block<'_>,
    own: &Hash,
) -> KnownAs
    requires bytes { bytes.now ≡ bytes_of block.now }
    requires own { own.now ≡ header_hash_of block.now.header }
    ensures { IsKnownAs world.now accepted.now block.now result }
{
    if accepted.bytes.get().as_slice() == bytes {
        return KnownAs::Same;
    }
    if !is_linked_in_place(world, block) {
        return KnownAs::Other;
    }
    if *own == accepted.header_hash {
        KnownAs::Twin
    } else {
        KnownAs::Fork
    }
}

fn beside(world: &World, accepted: &CommittedBlock, bytes: &[u8], block: &Block<'_>) -> Known
    requires { bytes.now ≡ bytes_of block.now }
    ensures { IsBeside world.now accepted.now block.now result }
{
    let own = header_hash(&block.header);
    Known {
        number: block.header.number,
        how: relation(world, accepted, bytes, block, &own),
        accepted: accepted.header_hash,
        own,
    }
}

/// How the block, which these bytes spell, is related to the accepted block of its number; none if its number was not
/// accepted. Compares the bytes, and hashes the transactions if they differ: linear in the bytes. Takes no memory.
pub fn how_known(world: &World, bytes: &[u8], block: &Block<'_>) -> Option<Known>
    requires { Spells bytes.now block.now }
    ensures { IsSaid world.now block.now result }
{
    match world.block(block.header.number) {
        None => None,
        Some(accepted) => Some(beside(world, accepted, bytes, block)),
    }
}
