ghost use Rattle.std.specs.Prelude.{◌≡◌, List, ℕ, IsTrue, IfOk};
ghost use Rattle.std.specs.List.{list_all};
ghost use Rattle.std.specs.Str.{bytes_eq};
ghost use Rattle.values.specs.Name.{is_name_byte, is_name};

use crate::lent::NameRef;
use std::alloc::{AllocError, Global};
use std::marker::Model;

/// The most bytes that a name has.
pub const MAX_NAME: usize = 64;

fn is_name_byte(byte: u8) -> bool
    ensures { result ≡ is_name_byte byte }
{
    matches!(byte, b'0'..=b'9' | b'A'..=b'Z' | b'a'..=b'z' | b'.' | b'-' | b'_')
}

fn are_name_bytes(bytes: &[u8]) -> bool
    ensures { result ≡ list_all is_name_byte bytes.now }
{
    bytes.iter().all(|b| is_name_byte(*b))
}

/// Whether the bytes are a name: 1 to 64 ASCII letters, digits, `.`, `-` and `_`. Linear in their
/// number, up to 64.
pub fn is_name(bytes: &[u8]) -> bool
    ensures { result ≡ is_name bytes.now }
{
    let len = bytes.len();
    1 <= len && len <= MAX_NAME && are_name_bytes(bytes)
}

/// The name of an organization, a channel or a chaincode. A contract sees the list of its bytes.
#[derive(Debug, Drop)]
pub struct Name {
    bytes: Vec<u8>,
}

impl Model for Name {
    ghost Value = { List ℕ };

    ghost view = { λ n. n.bytes.items };

    ghost invariant = { λ n. IsTrue (is_name n.bytes.items) };
}

impl Name {
    /// The name with these bytes, which it copies: up to 64.
    pub fn from_slice(alloc: Global, bytes: &[u8]) -> Result<Name, AllocError>
        requires { IsTrue (is_name bytes.now) }
        ensures { IfOk result (λ name. name ≡ bytes.now) }
    {
        Ok(Name {
            bytes: Vec::from_slice(alloc, bytes)?,
        })
    }

    /// The bytes, from 1 to 64.
    pub fn as_slice(&self) -> &[u8]
        ensures value { result.now ≡ self.now }
        ensures name { IsTrue (is_name result.now) }
    {
        self.bytes.as_slice()
    }

    /// The name, as a lent value.
    pub fn lend(&self) -> NameRef<'_>
        ensures { result ≡ self.now }
    {
        NameRef::new(self.bytes.as_slice())
    }

    /// A copy, of up to 64 bytes.
    pub fn copy(&self, alloc: Global) -> Result<Name, AllocError>
        ensures { IfOk result (λ copied. copied ≡ self.now) }
    {
        Name::from_slice(alloc, self.as_slice())
    }

    /// Whether both are one name: their bytes are equal.
    pub fn is_same(&self, other: &Name) -> bool
        ensures { result ≡ bytes_eq self.now other.now }
    {
        self.bytes.as_slice() == other.bytes.as_slice()
    }
}
