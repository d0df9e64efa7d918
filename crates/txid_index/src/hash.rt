ghost use Rattle.std.specs.Prelude.{◌≡◌};
ghost use Rattle.txid_index.specs.Hash.{id_hash};

use std::hash::{FoldHasher, Hasher};
use transaction::TxId;

// so many hashes there are
const HASHES: u64 = 1 << 32;

/// By which uses are found.
pub(crate) fn id_hash(id: &TxId) -> u32
    ensures { result ≡ id_hash id.now }
{
    let mut hasher = FoldHasher::default();
    hasher.write(id);
    (hasher.finish() % HASHES) as u32
}
