ghost use Rattle.std.specs.Prelude.{◌≡◌, ◌==◌, ◌≤◌, ◌<◌, ◌^◌, ℕ, List, IsTrue, IfOk, length};
ghost use Rattle.std.specs.Str.{bytes_eq};
ghost use Rattle.values.specs.Key.{is_key, is_bound};
ghost use Rattle.values.specs.Name.{max_name_bytes, is_name};

use crate::bytes::Bytes;
use crate::key::Key;
use crate::name::Name;
use std::alloc::{AllocError, Global};
use std::marker::Model;

/// Lent bytes. A contract sees the list of them.
#[derive(Drop)]
pub struct Slice<'a> {
    bytes: &'a [u8],
}

impl<'a> Model for Slice<'a> {
    ghost Value = { List ℕ };

    ghost view = { λ s. s.bytes.now };
}

impl<'a> Slice<'a> {
    /// These bytes, lent.
    pub fn new(bytes: &'a [u8]) -> Slice<'a>
        ensures { result ≡ bytes.now }
    {
        Slice { bytes }
    }

    /// The bytes.
    pub fn as_slice(&self) -> &'a [u8]
        ensures { result.now ≡ self.now }
    {
        self.bytes
    }

    /// These bytes once more, lent for as long.
    pub fn reborrow(&self) -> Slice<'a>
        ensures { result ≡ self.now }
    {
        Slice { bytes: self.bytes }
    }

    /// A copy: linear in the number of bytes, in time and memory.
    pub fn copy(&self, alloc: Global) -> Result<Bytes, AllocError>
        ensures { IfOk result (λ copied. copied ≡ self.now) }
    {
        Bytes::from_slice(alloc, self.bytes)
    }

    /// The number of bytes.
    pub fn len(&self) -> usize
        ensures value { result ≡ length self.now }
        ensures most { result < 2 ^ 63 }
    {
        self.bytes.len()
    }

    /// Whether there are no bytes.
    pub fn is_empty(&self) -> bool
        ensures { result ≡ (length self.now == 0) }
    {
        self.bytes.is_empty()
    }

    /// Whether the bytes are equal. Linear in their number.
    pub fn is_same(&self, other: &Slice<'_>) -> bool
        ensures { result ≡ bytes_eq self.now other.now }
    {
        self.bytes == other.bytes
    }
}

/// A name that is lent.
#[derive(Drop)]
pub struct NameRef<'a> {
    bytes: &'a [u8],
}

impl<'a> Model for NameRef<'a> {
    ghost Value = { List ℕ };

    ghost view = { λ s. s.bytes.now };

    ghost invariant = { λ s. IsTrue (is_name s.bytes.now) };
}

impl<'a> NameRef<'a> {
    /// The name with these bytes, lent.
    pub fn new(bytes: &'a [u8]) -> NameRef<'a>
        requires { IsTrue (is_name bytes.now) }
        ensures { result ≡ bytes.now }
    {
        NameRef { bytes }
    }

    /// The bytes, from 1 to 64.
    pub fn as_slice(&self) -> &'a [u8]
        ensures value { result.now ≡ self.now }
        ensures name { IsTrue (is_name result.now) }
    {
        self.bytes
    }

    /// This name once more, lent for as long.
    pub fn reborrow(&self) -> NameRef<'a>
        ensures { result ≡ self.now }
    {
        NameRef { bytes: self.bytes }
    }

    /// The number of bytes, from 1 to 64.
    pub fn len(&self) -> usize
        ensures value { result ≡ length self.now }
        ensures most { result ≤ max_name_bytes }
    {
        self.bytes.len()
    }

    /// A copy, of up to 64 bytes.
    pub fn copy(&self, alloc: Global) -> Result<Name, AllocError>
        ensures { IfOk result (λ copied. copied ≡ self.now) }
    {
        Name::from_slice(alloc, self.bytes)
    }

    /// Whether both are one name: their bytes are equal.
    pub fn is_same(&self, other: &NameRef<'_>) -> bool
        ensures { result ≡ bytes_eq self.now other.now }
    {
        self.bytes == other.bytes
    }
}

/// A key that is lent.
#[derive(Drop)]
pub struct KeyRef<'a> {
    bytes: &'a [u8],
}

impl<'a> Model for KeyRef<'a> {
    ghost Value = { List ℕ };

    ghost view = { λ s. s.bytes.now };

    ghost invariant = { λ s. IsTrue (is_key s.bytes.now) };
}

impl<'a> KeyRef<'a> {
    /// The key with these bytes, lent.
    pub fn new(bytes: &'a [u8]) -> KeyRef<'a>
        requires { IsTrue (is_key bytes.now) }
        ensures { result ≡ bytes.now }
    {
        KeyRef { bytes }
    }

    /// The bytes, from 1 to 1,024.
    pub fn as_slice(&self) -> &'a [u8]
        ensures value { result.now ≡ self.now }
        ensures key { IsTrue (is_key result.now) }
    {
        self.bytes
    }

    /// This key once more, lent for as long.
    pub fn reborrow(&self) -> KeyRef<'a>
        ensures { result ≡ self.now }
    {
        KeyRef { bytes: self.bytes }
    }

    /// A copy, of up to 1,024 bytes.
    pub fn copy(&self, alloc: Global) -> Result<Key, AllocError>
        ensures { IfOk result (λ copied. copied ≡ self.now) }
    {
        Key::from_slice(alloc, self.bytes)
    }

    /// Whether both are one key: their bytes are equal. Linear in their number.
    pub fn is_same(&self, other: &KeyRef<'_>) -> bool
        ensures { result ≡ bytes_eq self.now other.now }
    {
        self.bytes == other.bytes
    }
}

/// Where a range of keys begins or ends, lent; empty where it is unbounded.
#[derive(Drop)]
pub struct BoundRef<'a> {
    bytes: &'a [u8],
}

impl<'a> Model for BoundRef<'a> {
    ghost Value = { List ℕ };

    ghost view = { λ s. s.bytes.now };

    ghost invariant = { λ s. IsTrue (is_bound s.bytes.now) };
}

impl<'a> BoundRef<'a> {
    /// The bound with these bytes, lent.
    pub fn new(bytes: &'a [u8]) -> BoundRef<'a>
        requires { IsTrue (is_bound bytes.now) }
        ensures { result ≡ bytes.now }
    {
        BoundRef { bytes }
    }

    /// The bytes, up to 1,024.
    pub fn as_slice(&self) -> &'a [u8]
        ensures value { result.now ≡ self.now }
        ensures bound { IsTrue (is_bound result.now) }
    {
        self.bytes
    }

    /// This bound once more, lent for as long.
    pub fn reborrow(&self) -> BoundRef<'a>
        ensures { result ≡ self.now }
    {
        BoundRef { bytes: self.bytes }
    }

    /// Whether both are one bound: their bytes are equal. Linear in their number.
    pub fn is_same(&self, other: &BoundRef<'_>) -> bool
        ensures { result ≡ bytes_eq self.now other.now }
    {
        self.bytes == other.bytes
    }
}
