ghost use Rattle.std.specs.Prelude.{◌≡◌, ◌++◌};
ghost use Rattle.header_hash.specs.Hashes.{commit_hash_of, header_hash_of, tx_id_of};

use crate::der::header_der;
use block::Header;
use hex::encode_to_slice;
use sha2::{Digest, Sha256};
use transaction::{ID_BYTES, TxId};
use values::Hash;

/// The header hash: SHA-256 (FIPS 180-4) of the header's DER bytes. Takes no memory, and its time is
/// bounded.
pub fn header_hash(header: &Header) -> Hash
    ensures { result ≡ header_hash_of header.now }
{
    Sha256::digest(header_der(header).as_slice())
}

/// The transaction id: SHA-256 (FIPS 180-4) of the nonce followed by the creator's identity bytes, as
/// 64 lower case hexadecimal digits. Linear in the bytes of both, and takes no memory.
pub fn tx_id(nonce: &[u8], creator: &[u8]) -> TxId
    ensures { result ≡ tx_id_of nonce.now creator.now }
{
    let mut hasher = Sha256::new();
    hasher.update(nonce);
    hasher.update(creator);
    let mut id = [0; ID_BYTES];
    // Two digits a byte fill it, so this can't fail.
    encode_to_slice(hasher.finalize(), &mut id).unwrap();
    id
}

/// The commit hash of a block: SHA-256 (FIPS 180-4) of the commit hash before it, or of 32 zero bytes, followed by what
/// the block changes, which is in three parts. Linear in these bytes, and takes no memory.
pub fn commit_hash(previous: &Hash, first: &[u8], second: &[u8], third: &[u8]) -> Hash
    ensures { result ≡ commit_hash_of previous.now (first.now ++ (second.now ++ third.now)) }
{
    let mut hasher = Sha256::new();
    hasher.update(previous.as_slice());
    hasher.update(first);
    hasher.update(second);
    hasher.update(third);
    hasher.finalize()
}
