//! Whether a script states these bytes.
ghost use Rattle.std.specs.Prelude.{◌≡◌, true, Some, Ok, IfOk, slice_get};
ghost use Rattle.drafts.specs.DraftBlock.{txs_of};

use crate::signing::Signing;
use drafts::{DraftFault, draft_txs};
use std::alloc::{AllocError, Global};
use text_lines::text_of;
use transaction::BlockVersion;
use values::{Bytes, Slice};

fn is_at(txs: &[Slice<'_>], index: usize, bytes: &Bytes) -> bool
    ensures { result ≡ true → slice_get txs.now index ≡ Some bytes.now }
{
    match txs.get(index) {
        Some(tx) => tx.as_slice() == bytes.as_slice(),
        None => false,
    }
}

fn are_same(drafted: &[Bytes], txs: &[Slice<'_>]) -> bool
    ensures { result ≡ true → drafted.now ≡ txs.now }
{
    for (index, bytes) in drafted.iter().enumerate() {
        if !is_at(txs, index, bytes) {
            return false;
        }
    }
    drafted.len() == txs.len()
}

/// Whether drafting the lines puts exactly these bytes into the places of a block.
pub(crate) fn says(
    alloc: Global,
    signing: &Signing<'_>,
    version: BlockVersion,
    lines: &[u8],
    txs: &[Slice<'_>],
) -> Result<bool, AllocError>
    ensures { IfOk result (λ says. says ≡ true → txs_of version signing.now.keys.now signing.now.channel.now lines.now ≡ Ok txs.now) }
{
    let Ok(text) = text_of(lines) else {
        return Ok(false);
    };
    match draft_txs(alloc, signing.channel, signing.keys, version, text) {
        Ok(drafted) => Ok(are_same(drafted.as_slice(), txs)),
        Err(DraftFault::Line(_)) => Ok(false),
        Err(DraftFault::Memory) => Err(AllocError),
    }
}
