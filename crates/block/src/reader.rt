ghost use Rattle.std.specs.Prelude.{◌≡◌, ℕ, ◌<◌, ◌≤◌, ◌*◌, List, [], ◌++◌, length, take, drop, IfOk, IfErr, Ok, Err, ◌⊎◌};
ghost use Rattle.std.specs.Vec.{vec_capacity};
ghost use Rattle.values.specs.Hash.{hash_bytes};
ghost use Rattle.values.specs.Memory.{GivesUnless};
ghost use Rattle.block.specs.declared.block.Block.{Block};
ghost use Rattle.block.specs.declared.fault.BlockFault.{BlockFault};
ghost use Rattle.block.specs.declared.fault.BlockFault.TheVariants.{BadMagic, Truncated, Memory};
ghost use Rattle.block.specs.Grammar.{Spells};
ghost use Rattle.block.specs.first_version.Grammar.{magic};
ghost use Rattle.block.specs.Faults.{HasFault};
ghost use Rattle.block.specs.Reading.{Gives, bytes_at, number_at, version_at, previous_at, header_at, count_at, tx_at, txs_at, block_at, versioned_at};

use crate::block::{Block, Header, MAGIC_1, MAGIC_2, MAX_TXS, Previous};
use crate::fault::BlockFault;
use byteorder::{BigEndian, ByteOrder};
use std::alloc::{AllocError, Global};
use transaction::{BlockVersion, MAX_TX_BYTES};
use values::{HASH_BYTES, Hash, Items, Slice};

fn read_bytes(n: usize, bytes: &[u8]) -> Result<(&[u8], &[u8]), BlockFault>
    ensures { Gives (λ x. (x.0.now, x.1.now)) result (bytes_at n bytes.now) }
{
    if bytes.len() < n {
        return Err(BlockFault::Truncated);
    }
    Ok(bytes.split_at(n))
}

fn read_u64(bytes: &[u8]) -> Result<(u64, &[u8]), BlockFault>
    ensures { Gives (λ x. (x.0, x.1.now)) result (number_at 8 bytes.now) }
{
    if bytes.len() < 8 {
        return Err(BlockFault::Truncated);
    }
    Ok((BigEndian::read_u64(bytes), &bytes[8..]))
}

fn read_u32(bytes: &[u8]) -> Result<(u32, &[u8]), BlockFault>
    ensures { Gives (λ x. (x.0, x.1.now)) result (number_at 4 bytes.now) }
{
    if bytes.len() < 4 {
        return Err(BlockFault::Truncated);
    }
    Ok((BigEndian::read_u32(bytes), &bytes[4..]))
}

#[tactic(auto, unfolding(crate::specs::Reading::version_at))]
fn read_version(bytes: &[u8]) -> Result<(BlockVersion, &[u8]), BlockFault>
    ensures { Gives (λ x. (x.0, x.1.now)) result (version_at bytes.now) }
{
    if bytes.starts_with(&MAGIC_1) {
        return Ok((BlockVersion::V1, &bytes[4..]));
    }
    if bytes.starts_with(&MAGIC_2) {
        return Ok((BlockVersion::V2, &bytes[4..]));
    }
    Err(BlockFault::BadMagic)
}

fn read_hash(bytes: &[u8]) -> Result<(Hash, &[u8]), BlockFault>
    ensures { Gives (λ x. (x.0, x.1.now)) result (bytes_at hash_bytes bytes.now) }
{
    if bytes.len() < HASH_BYTES {
        return Err(BlockFault::Truncated);
    }
    let (front, rest) = bytes.split_at(HASH_BYTES);
    let mut hash = [0; HASH_BYTES];
    hash.copy_from_slice(front);
    Ok((hash, rest))
}

#[tactic(auto, unfolding(crate::specs::Reading::previous_at))]
fn read_previous(bytes: &[u8]) -> Result<(Previous, &[u8]), BlockFault>
    ensures { Gives (λ x. (x.0, x.1.now)) result (previous_at bytes.now) }
{
    let Some((len, rest)) = bytes.split_first() else {
        return Err(BlockFault::Truncated);
    };
    if *len == 0 {
        return Ok((Previous::Empty, rest));
    }
    if *len as usize != HASH_BYTES {
        return Err(BlockFault::PreviousLength);
    }
    let (hash, rest) = read_hash(rest)?;
    Ok((Previous::Hash(hash), rest))
}

#[tactic(auto, unfolding(crate::specs::Reading::header_at))]
fn read_header(bytes: &[u8]) -> Result<(Header, &[u8]), BlockFault>
    ensures { Gives (λ x. (x.0, x.1.now)) result (header_at (magic ++ bytes.now)) }
{
    let (number, rest) = read_u64(bytes)?;
    let (previous, rest) = read_previous(rest)?;
    let (data_hash, rest) = read_hash(rest)?;
    let header = Header {
        number,
        previous,
        data_hash,
    };
    Ok((header, rest))
}

#[tactic(auto, unfolding(crate::specs::Reading::count_at))]
fn read_count(bytes: &[u8]) -> Result<(u32, &[u8]), BlockFault>
    ensures { Gives (λ x. (x.0, x.1.now)) result (count_at bytes.now) }
{
    let (count, rest) = read_u32(bytes)?;
    if MAX_TXS < count as usize {
        return Err(BlockFault::TooManyTxs);
    }
    Ok((count, rest))
}

#[tactic(auto, unfolding(crate::specs::Reading::tx_at))]
fn read_tx(bytes: &[u8]) -> Result<(Slice<'_>, &[u8]), BlockFault>
    ensures { Gives (λ x. (x.0, x.1.now)) result (tx_at bytes.now) }
{
    let (len, rest) = read_u32(bytes)?;
    let len = len as usize;
    if MAX_TX_BYTES < len {
        return Err(BlockFault::TxTooLong);
    }
    let (tx, rest) = read_bytes(len, rest)?;
    Ok((Slice::new(tx), rest))
}

// The fewest bytes of a transaction in a block: those of its length.
const LEAST_BYTES: usize = 4;

// No transactions yet, and room for this many, but for no more than the bytes can encode: a count isn't believed.
fn room_for<'a>(alloc: Global, count: u32, bytes: &[u8]) -> Result<Vec<Slice<'a>>, AllocError>
    ensures empty { IfOk result (λ room. room.items ≡ []) }
    ensures room { IfOk result (λ room. LEAST_BYTES * vec_capacity room ≤ length bytes.now) }
{
    let most = bytes.len() / LEAST_BYTES;
    Vec::with_capacity(alloc, most.min(count as usize))
}

fn read_txs(
    alloc: Global,
    count: u32,
    bytes: &[u8],
) -> Result<(Items<Slice<'_>>, &[u8]), BlockFault>
    ensures { Gives (λ x. (x.0, x.1.now)) result (txs_at count bytes.now) }
{
    let mut txs = Items::from_vec(room_for(alloc, count, bytes)?);
    let mut rest = bytes;
    for _ in 0..count {
        let (tx, after) = read_tx(rest)?;
        txs.push(tx)?;
        rest = after;
    }
    Ok((txs, rest))
}

#[tactic(auto, unfolding(crate::specs::Reading::block_at))]
fn read_contents(alloc: Global, bytes: &[u8]) -> Result<(Header, Items<Slice<'_>>), BlockFault>
    ensures { Gives (λ x. record { header = x.0; txs = x.1 }) result (block_at (magic ++ bytes.now)) }
{
    let (header, rest) = read_header(bytes)?;
    let (count, rest) = read_count(rest)?;
    let (txs, rest) = read_txs(alloc, count, rest)?;
    if !rest.is_empty() {
        return Err(BlockFault::TrailingBytes);
    }
    Ok((header, txs))
}

#[tactic(auto, unfolding(crate::specs::Reading::versioned_at))]
fn read_block(alloc: Global, bytes: &[u8]) -> Result<Block<'_>, BlockFault>
    ensures { Gives (λ b. b) result (versioned_at bytes.now) }
{
    let (version, rest) = read_version(bytes)?;
    let (header, txs) = read_contents(alloc, rest)?;
    Ok(Block {
        version,
        header,
        txs,
    })
}

/// The block that the bytes encode, which borrows them, or the fault of the first field from the left that can't be
/// read. Time is linear in the number of transactions, for any length of theirs. Memory is for their list only, made at
/// once: 16 bytes for each, and at most 4 for each byte after the count, which isn't believed.
pub fn decode_block(alloc: Global, bytes: &[u8]) -> Result<Block<'_>, BlockFault>
    // The bytes encode the block that is returned, no other block has this encoding, and the block has no other.
    ensures found { IfOk result (λ b. Spells bytes.now b) }
    ensures one_block { IfOk result (λ b. (other : Block) → Spells bytes.now other → other ≡ b) }
    ensures one_spelling { IfOk result (λ b. (other : List ℕ) → Spells other b → other ≡ bytes.now) }
    // A block that the bytes encode is returned.
    ensures spelled { (b : Block) → Spells bytes.now b → GivesUnless Memory result (Ok b) }
    // The fault that is returned is that of the bytes, and the fault of the bytes is returned.
    ensures fault { IfErr result (λ f. (f ≡ Memory) ⊎ HasFault bytes.now f) }
    ensures faulty { (f : BlockFault) → HasFault bytes.now f → GivesUnless Memory result (Err f) }
    // A block that breaks off is rejected: within the magic as no block, after it as cut, at any place.
    ensures cut_magic { (rest : List ℕ) (b : Block) → Spells (bytes.now ++ rest) b → length bytes.now < 4 → GivesUnless Memory result (Err BadMagic) }
    ensures cut { (rest : List ℕ) (b : Block) → Spells (bytes.now ++ rest) b → 0 < length rest → 4 ≤ length bytes.now → GivesUnless Memory result (Err Truncated) }
{
    read_block(alloc, bytes)
}
