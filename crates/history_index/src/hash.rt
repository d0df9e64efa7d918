ghost use Rattle.std.specs.Prelude.{◌≡◌};
ghost use Rattle.history_index.specs.Hash.{key_hash};

use std::hash::{FoldHasher, Hasher};
use values::{KeyRef, NameRef};

// how many hashes there are
const HASHES: u64 = 1 << 32;

/// The hash by which entries are found.
pub(crate) fn key_hash(namespace: &NameRef<'_>, key: &KeyRef<'_>) -> u32
    ensures { result ≡ key_hash (namespace.now, key.now) }
{
    let mut hasher = FoldHasher::default();
    hasher.write(namespace.as_slice());
    hasher.write(key.as_slice());
    (hasher.finish() % HASHES) as u32
}
