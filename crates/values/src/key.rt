ghost use Rattle.std.specs.Prelude.{◌≡◌, List, ℕ, IsTrue, IfOk};
ghost use Rattle.std.specs.Str.{bytes_eq};
ghost use Rattle.values.specs.Key.{is_key, is_bound};

use crate::lent::KeyRef;
use std::alloc::{AllocError, Global};
use std::marker::Model;

/// The most bytes that a key has, and a bound of a range.
pub const MAX_KEY: usize = 1024;

/// Whether the bytes are a key: 1 to 1,024 of any value.
pub fn is_key(bytes: &[u8]) -> bool
    ensures { result ≡ is_key bytes.now }
{
    let len = bytes.len();
    1 <= len && len <= MAX_KEY
}

/// Whether the bytes are a bound: up to 1,024 of any value.
pub fn is_bound(bytes: &[u8]) -> bool
    ensures { result ≡ is_bound bytes.now }
{
    bytes.len() <= MAX_KEY
}

/// The key of a row in its namespace. A contract sees the list of its bytes.
#[derive(Debug, Drop)]
pub struct Key {
    bytes: Vec<u8>,
}

impl Model for Key {
    ghost Value = { List ℕ };

    ghost view = { λ k. k.bytes.items };

    ghost invariant = { λ k. IsTrue (is_key k.bytes.items) };
}

impl Key {
    /// The key with these bytes, which it copies: up to 1,024.
    pub fn from_slice(alloc: Global, bytes: &[u8]) -> Result<Key, AllocError>
        requires { IsTrue (is_key bytes.now) }
        ensures { IfOk result (λ key. key ≡ bytes.now) }
    {
        Ok(Key {
            bytes: Vec::from_slice(alloc, bytes)?,
        })
    }

    /// The bytes, from 1 to 1,024.
    pub fn as_slice(&self) -> &[u8]
        ensures value { result.now ≡ self.now }
        ensures key { IsTrue (is_key result.now) }
    {
        self.bytes.as_slice()
    }

    /// The key, as a lent value.
    pub fn lend(&self) -> KeyRef<'_>
        ensures { result ≡ self.now }
    {
        KeyRef::new(self.bytes.as_slice())
    }

    /// A copy, of up to 1,024 bytes.
    pub fn copy(&self, alloc: Global) -> Result<Key, AllocError>
        ensures { IfOk result (λ copied. copied ≡ self.now) }
    {
        Key::from_slice(alloc, self.as_slice())
    }

    /// Whether both are one key: their bytes are equal. Linear in their number.
    pub fn is_same(&self, other: &Key) -> bool
        ensures { result ≡ bytes_eq self.now other.now }
    {
        self.bytes.as_slice() == other.bytes.as_slice()
    }
}
