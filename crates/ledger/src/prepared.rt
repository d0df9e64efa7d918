//! Blocks that are taken in ahead, whatever the world before them.
ghost use Rattle.std.specs.Prelude.{◌≡◌, IfOk, MatchResult};
ghost use Rattle.block.specs.Grammar.{bytes_of};
ghost use Rattle.next_block.specs.Prepared.{IsPrepared};
ghost use Rattle.next_block.specs.Tentative.{AreTentativeIn};
ghost use Rattle.ledger.specs.Prepared.{IsAnyRefusal};

use channel::Configuration;
use header_hash::data_hash;
use intake::{Taken, take_in};
use linking::{DecodedBlock, HashedBlock};
use next_block::Prepared;
use policy_eval::Verify;
use rules::Refused;
use std::alloc::{AllocError, Global};

/// The block with the data hash of its transactions. Linear in its bytes.
fn hashed<'b>(block: DecodedBlock<'b>) -> HashedBlock<'b>
    ensures { result ≡ block.entry }
{
    let hash = data_hash(block.txs());
    block.with_data_hash(hash)
}

/// The block, of which this was taken in, prepared.
fn prepared_of<'b>(
    alloc: Global,
    block: DecodedBlock<'b>,
    taken: Vec<Taken<'b>>,
) -> Result<Prepared<'b>, AllocError>
    ensures { IfOk result (λ p. (p.block ≡ block.entry) × (p.bytes ≡ bytes_of block.entry) × AreTentativeIn taken.entry.items p.tentative) }
{
    let bytes = block.kept_bytes(alloc)?;
    next_block::prepared_of(alloc, hashed(block), bytes, taken)
}

/// Takes the block of these bytes in for a ledger of this channel, or says why any ledger refuses it.
///
/// It needs no ledger, so that threads may do so for many blocks at the same time. Linear in the block: its bytes are
/// hashed and copied, its signatures verified, and the keys that it writes sorted. Memory for the copy and for its job,
/// which lends from the bytes.
pub fn prepare<'b, V: Verify>(
    alloc: Global,
    channel: &Configuration,
    bytes: &'b [u8],
    verifier: &V,
) -> Result<Prepared<'b>, Refused>
    ensures { MatchResult result (IsPrepared channel.now (V.accepts verifier.now) bytes.now) (IsAnyRefusal bytes.now) }
{
    let block = DecodedBlock::decode(alloc, bytes)?;
    let taken = take_in(alloc, channel, verifier, block.version(), block.txs())?;
    Ok(prepared_of(alloc, block, taken)?)
}
