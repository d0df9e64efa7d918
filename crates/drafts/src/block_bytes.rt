//! The bytes of a block of transactions and updates after a header.
ghost use Rattle.std.specs.Prelude.{◌≡◌, ◌+◌, ◌<◌, ◌≤◌, ◌^◌, length, IfOk, IfSome};
ghost use Rattle.std.specs.List.{AllByRecursion};
ghost use Rattle.block.specs.Grammar.{IsTx, Spells, bytes_of};
ghost use Rattle.block.specs.Limits.{max_txs};
ghost use Rattle.drafts.specs.DraftBlock as spec;

use block::{Block, BlockVersion, Header, Previous, encode_block};
use header_hash::{data_hash, header_hash};
use std::alloc::{AllocError, Global};
use transaction::EncodeFault;
use values::{Bytes, Items, Slice};

fn lend_txs<'a>(alloc: Global, txs: &'a [Bytes]) -> Result<Items<Slice<'a>>, AllocError>
    ensures { IfOk result (λ lent. lent ≡ txs.now) }
{
    let mut lent = Items::new(alloc);
    for tx in txs {
        lent.push(tx.lend())?;
    }
    Ok(lent)
}

fn header_after(previous: Option<Header>, txs: &[Slice<'_>]) -> Header
    requires { IfSome previous (λ h. h.number + 1 < 2 ^ 64) }
    ensures { result ≡ spec.header_after previous txs.now }
{
    let data_hash = data_hash(txs);
    match previous {
        None => Header {
            number: 0,
            previous: Previous::Empty,
            data_hash,
        },
        Some(before) => Header {
            number: before.number + 1,
            previous: Previous::Hash(header_hash(&before)),
            data_hash,
        },
    }
}

pub(crate) fn block_bytes(
    alloc: Global,
    version: BlockVersion,
    previous: Option<Header>,
    txs: &[Bytes],
) -> Result<Bytes, AllocError>
    requires number { IfSome previous (λ h. h.number + 1 < 2 ^ 64) }
    requires count { length txs.now ≤ max_txs }
    requires each { AllByRecursion IsTx txs.now }
    ensures bytes { IfOk result (λ bytes. bytes ≡ bytes_of (spec.block_after version previous txs.now)) }
    ensures spelled { IfOk result (λ bytes. Spells bytes (spec.block_after version previous txs.now)) }
{
    let lent = lend_txs(alloc, txs)?;
    let block = Block {
        version,
        header: header_after(previous, lent.as_slice()),
        txs: lent,
    };
    match encode_block(alloc, &block) {
        Ok(bytes) => Ok(bytes),
        Err(EncodeFault::Memory) => Err(AllocError),
        Err(EncodeFault::TooLarge) => unreachable!(),
    }
}
