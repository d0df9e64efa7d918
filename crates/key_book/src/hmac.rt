ghost use Rattle.std.specs.Prelude.{◌≡◌, ◌≤◌, ℕ, List, length};
ghost use Rattle.key_book.specs.Hmac.{hmac, key_xor, padded_key};
ghost use Rattle.key_book.specs.Pads.{AreHashedPads};

use sha2::{Digest, Sha256};
use values::Hash;

// RFC 2104, section 2: the block length of the hash function in bytes, and the two paddings' bytes.
pub(crate) const BLOCK: usize = 64;

const IPAD: u8 = 0x36;

const OPAD: u8 = 0x5c;

fn padded_key(key: &[u8]) -> [u8; BLOCK]
    requires { length key.now ≤ 64 }
    ensures { result ≡ padded_key key.now }
{
    let mut block = [0; BLOCK];
    block[..key.len()].copy_from_slice(key);
    block
}

fn key_xor(key: &[u8], pad: u8) -> [u8; BLOCK]
    requires { length key.now ≤ 64 }
    ensures { result ≡ key_xor key.now pad }
{
    let mut block = padded_key(key);
    for byte in &mut block {
        *byte ^= pad;
    }
    block
}

/// Both paddings of a key, hashed once for all messages (RFC 2104, section 4).
#[derive(Drop)]
pub(crate) struct HashedPads {
    inner: Sha256,
    outer: Sha256,
}

fn copy_of(hasher: &Sha256) -> Sha256
    ensures { result ≡ hasher.now }
{
    let Ok(copy) = hasher.clone() else {
        unreachable!()
    };
    copy
}

impl HashedPads {
    /// Those of a key of up to 64 bytes.
    pub(crate) fn new(key: &[u8]) -> HashedPads
        requires { length key.now ≤ 64 }
        ensures { AreHashedPads key.now result }
    {
        let mut inner = Sha256::new();
        inner.update(key_xor(key, IPAD));
        let mut outer = Sha256::new();
        outer.update(key_xor(key, OPAD));
        HashedPads { inner, outer }
    }

    /// The 32 bytes of HMAC-SHA-256 of the message, under the key whose paddings these are. Linear in the message;
    /// takes no memory, and copies no part of the message but what SHA-256 buffers.
    pub(crate) fn hmac(&self, message: &[u8]) -> Hash
        ensures { (key : List ℕ) → AreHashedPads key self.now → result ≡ hmac key message.now }
    {
        let mut inner = copy_of(&self.inner);
        inner.update(message);
        let mut outer = copy_of(&self.outer);
        outer.update(inner.finalize());
        outer.finalize()
    }
}

/// The 32 bytes of HMAC-SHA-256 (RFC 2104) of the message, under a key of up to 64 bytes. Linear in
/// the message; takes no memory, and copies no part of the message but what SHA-256 buffers.
pub fn hmac_sha256(key: &[u8], message: &[u8]) -> Hash
    requires { length key.now ≤ 64 }
    ensures { result ≡ hmac key.now message.now }
{
    HashedPads::new(key).hmac(message)
}
