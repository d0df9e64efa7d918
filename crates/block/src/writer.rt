ghost use Rattle.std.specs.Prelude.{◌≡◌, ℕ, ◌^◌, ◌<◌, List, ◌++◌, length, IfOk, OnOk, Ok, Err, true};
ghost use Rattle.std.specs.List.{list_all};
ghost use Rattle.values.specs.Memory.{GivesUnless};
ghost use Rattle.transaction.specs.declared.fault.EncodeFault.TheVariants.{TooLarge, Memory};
ghost use Rattle.block.specs.first_version.Grammar.{previous_bytes, tx_bytes, txs_bytes, IsPrevious, IsHeader};
ghost use Rattle.block.specs.Grammar.{magic_of, header_fields, Spells};
ghost use Rattle.block.specs.Limits.{is_short, are_within_limits};

use crate::block::{Block, Header, MAGIC_1, MAGIC_2, MAX_TXS, Previous};
use std::alloc::{AllocError, Global};
use transaction::{BlockVersion, EncodeFault, MAX_TX_BYTES, put_u32, put_u64};
use values::{Bytes, HASH_BYTES, Slice};

fn put_previous(out: &mut Vec<u8>, previous: &Previous) -> Result<(), AllocError>
    ensures bytes { OnOk result (out.new.items ≡ out.old.items ++ previous_bytes previous.now) }
    ensures fits { OnOk result (IsPrevious previous.now) }
{
    match previous {
        Previous::Empty => out.push(0)?,
        Previous::Hash(hash) => {
            out.push(HASH_BYTES as u8)?;
            out.extend_from_slice(hash)?;
        }
    }
    Ok(())
}

fn put_magic(out: &mut Vec<u8>, version: BlockVersion) -> Result<(), AllocError>
    ensures { OnOk result (out.new.items ≡ out.old.items ++ magic_of version) }
{
    match version {
        BlockVersion::V1 => out.extend_from_slice(&MAGIC_1),
        BlockVersion::V2 => out.extend_from_slice(&MAGIC_2),
    }
}

fn put_header(out: &mut Vec<u8>, header: &Header) -> Result<(), AllocError>
    ensures bytes { OnOk result (out.new.items ≡ out.old.items ++ header_fields header.now) }
    ensures fits { OnOk result (IsHeader header.now) }
{
    put_u64(out, header.number)?;
    put_previous(out, &header.previous)?;
    out.extend_from_slice(&header.data_hash)
}

fn put_tx(out: &mut Vec<u8>, tx: &Slice<'_>) -> Result<(), AllocError>
    requires { length tx.now < 2 ^ 32 }
    ensures { OnOk result (out.new.items ≡ out.old.items ++ tx_bytes tx.now) }
{
    put_u32(out, tx.len() as u32)?;
    out.extend_from_slice(tx.as_slice())
}

fn put_txs(out: &mut Vec<u8>, txs: &[Slice<'_>]) -> Result<(), AllocError>
    requires { are_within_limits txs.now ≡ true }
    ensures { OnOk result (out.new.items ≡ out.old.items ++ txs_bytes (length txs.now) txs.now) }
{
    put_u32(out, txs.len() as u32)?;
    for tx in txs {
        put_tx(out, tx)?;
    }
    Ok(())
}

fn is_short(tx: &Slice<'_>) -> bool
    ensures { result ≡ is_short tx.now }
{
    tx.len() <= MAX_TX_BYTES
}

fn are_short(txs: &[Slice<'_>]) -> bool
    ensures { result ≡ list_all is_short txs.now }
{
    txs.iter().all(is_short)
}

fn are_within_limits(txs: &[Slice<'_>]) -> bool
    ensures { result ≡ are_within_limits txs.now }
{
    txs.len() <= MAX_TXS && are_short(txs)
}

/// The bytes that encode the block. Linear in them, in time and memory: a block within its limits has at most
/// 4,294,983,761 bytes.
pub fn encode_block(alloc: Global, block: &Block<'_>) -> Result<Bytes, EncodeFault>
    ensures spelled { IfOk result (λ bytes. Spells bytes block.now) }
    // A block that has an encoding gets it.
    ensures encoded { (bytes : List ℕ) → Spells bytes block.now → GivesUnless Memory result (Ok bytes) }
    ensures too_large { result ≡ Err TooLarge → (bytes : List ℕ) → ¬ Spells bytes block.now }
{
    if !are_within_limits(block.txs.as_slice()) {
        return Err(EncodeFault::TooLarge);
    }
    let mut bytes = Vec::new(alloc);
    put_magic(&mut bytes, block.version)?;
    put_header(&mut bytes, &block.header)?;
    put_txs(&mut bytes, block.txs.as_slice())?;
    Ok(Bytes::from_vec(bytes))
}
