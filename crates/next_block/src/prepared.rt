//! Blocks that are taken in before their world is known.
ghost use Rattle.std.specs.Prelude.{◌≡◌, IfOk};
ghost use Rattle.next_block.specs.Prepared.{IsNextOfHashed};
ghost use Rattle.next_block.specs.Tentative.{AreTentativeIn};

use crate::tentative::{TentativeJob, tentative_job_of};
use intake::Taken;
use linking::{HashedBlock, LinkedBlock};
use rules::Refused;
use std::alloc::{AllocError, Global};
use values::{Bytes, Shared};
use world::World;

/// A block, hashed, with its bytes, to be kept, and what its job is made of if none of its ids was used before.
#[derive(Drop)]
pub struct Prepared<'b> {
    pub block: HashedBlock<'b>,
    pub bytes: Shared<Bytes>,
    pub tentative: TentativeJob<'b>,
}

/// The block, prepared, of what was taken in of its transactions. Costs what [`tentative_job_of`] does.
pub fn prepared_of<'b>(
    alloc: Global,
    block: HashedBlock<'b>,
    bytes: Shared<Bytes>,
    taken: Vec<Taken<'b>>,
) -> Result<Prepared<'b>, AllocError>
    ensures { IfOk result (λ p. (p.block ≡ block.entry) × (p.bytes ≡ bytes) × AreTentativeIn taken.entry.items p.tentative) }
{
    let tentative = tentative_job_of(alloc, taken)?;
    Ok(Prepared {
        block,
        bytes,
        tentative,
    })
}

/// The block, if it is the next one of the world; or why it isn't. Constant time.
pub fn next_of_hashed<'b>(
    world: &World,
    hashed: HashedBlock<'b>,
) -> Result<LinkedBlock<'b>, Refused>
    ensures { IsNextOfHashed world.now hashed.entry result }
{
    hashed.linked(world.height(), world.header_hash(), world.version())
}
