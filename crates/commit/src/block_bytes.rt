//! The bytes of blocks that are handed in.
ghost use Rattle.std.specs.Prelude.{◌≡◌, IfOk};
ghost use Rattle.linking.specs.OnItsWay.{IsDecoded};

use linking::DecodedBlock;
use rules::Refused;
use std::alloc::{AllocError, Global};
use std::marker::Model;
use values::{Bytes, Shared};

/// The bytes of a block: lent, so that a copy of them is kept, or shared with who handed them in, so that they are kept
/// themselves. A contract sees the list of them.
#[derive(Drop)]
pub(crate) struct BlockBytes<'b> {
    bytes: &'b [u8],
    whole: Option<&'b Shared<Bytes>>,
}

impl<'b> Model for BlockBytes<'b> {
    ghost use Rattle.std.specs.Prelude.{◌≡◌, ℕ, List, IfSome};

    ghost Value = { List ℕ };

    ghost view = { λ b. b.bytes.now };

    ghost invariant = { λ b. IfSome b.whole (λ whole. whole.now ≡ b.bytes.now) };
}

impl<'b> BlockBytes<'b> {
    /// These bytes, lent.
    pub(crate) fn lent(bytes: &'b [u8]) -> BlockBytes<'b>
        ensures { result ≡ bytes.now }
    {
        BlockBytes { bytes, whole: None }
    }

    /// These bytes, shared.
    pub(crate) fn shared(whole: &'b Shared<Bytes>) -> BlockBytes<'b>
        ensures { result ≡ whole.now }
    {
        BlockBytes {
            bytes: whole.get().as_slice(),
            whole: Some(whole),
        }
    }

    /// How many they are.
    pub(crate) fn len(&self) -> usize {
        self.bytes.len()
    }

    /// The block that they spell, or why they spell none.
    pub(crate) fn decode(&self, alloc: Global) -> Result<DecodedBlock<'b>, Refused>
        ensures { IsDecoded self.now result }
    {
        DecodedBlock::decode(alloc, self.bytes)
    }

    /// The bytes, for all who keep the block. Of bytes that are lent a copy: linear in their number, in time and memory.
    pub(crate) fn kept(&self, alloc: Global) -> Result<Shared<Bytes>, AllocError>
        ensures { IfOk result (λ kept. kept ≡ self.now) }
    {
        match self.whole {
            Some(whole) => whole.share(),
            None => Shared::new(alloc, Bytes::from_slice(alloc, self.bytes)?),
        }
    }
}

/// The bytes of all blocks, shared.
pub(crate) fn all_shared<'b>(
    alloc: Global,
    blocks: &'b [Shared<Bytes>],
) -> Result<Vec<BlockBytes<'b>>, AllocError>
    ensures { IfOk result (λ all. all.items ≡ blocks.now) }
{
    let mut all = Vec::with_capacity(alloc, blocks.len())?;
    for bytes in blocks {
        all.push(BlockBytes::shared(bytes))?;
    }
    Ok(all)
}
