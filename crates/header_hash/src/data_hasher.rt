ghost use Rattle.std.specs.Prelude.{◌≡◌};
ghost use Rattle.header_hash.specs.Hashes.{data_hash_of};

use sha2::{Digest, Sha256};
use values::{Hash, Slice};

/// Makes a block's data hash: SHA-256 (FIPS 180-4) of its transactions' bytes, one after the other.
#[derive(Drop)]
pub struct DataHasher {
    hasher: Sha256,
}

impl DataHasher {
    ghost use Rattle.std.specs.Prelude.{◌≡◌, ℕ, List, [], ◌++◌};
    ghost use Rattle.sha2.specs.Sha256.{sha256};
    ghost use Rattle.header_hash.specs.DataHash.{Holds};

    /// A hasher that has taken no bytes. Takes no memory.
    pub fn new() -> DataHasher
        ensures { Holds result [] }
    {
        DataHasher {
            hasher: Sha256::new(),
        }
    }

    /// Takes the bytes of the next transaction. Linear in their number, and takes no memory.
    pub fn add(&mut self, tx: &[u8])
        ensures { (m : List ℕ) → Holds self.old m → Holds self.new (m ++ tx.now) }
    {
        self.hasher.update(tx);
    }

    /// The data hash of the transactions that were added.
    pub fn finish(self) -> Hash
        ensures { (m : List ℕ) → Holds self m → result ≡ sha256 m }
    {
        self.hasher.finalize()
    }
}

/// The data hash of a block with these transactions. Linear in their bytes, and takes no memory.
pub fn data_hash(txs: &[Slice<'_>]) -> Hash
    ensures { result ≡ data_hash_of txs.now }
{
    let mut hasher = DataHasher::new();
    for tx in txs {
        hasher.add(tx.as_slice());
    }
    hasher.finish()
}
