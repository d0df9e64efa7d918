ghost use Rattle.std.specs.Prelude.{◌≡◌, ◌++◌, IfOk};

use std::alloc::{AllocError, Global};
use std::marker::Model;
use values::Bytes;

/// A message that was signed, lent from the block's bytes in two parts, one behind the other: an endorser's message stands there so.
/// A contract sees all of its bytes.
#[derive(Drop)]
pub struct Message<'a> {
    front: &'a [u8],
    rest: &'a [u8],
}

impl<'a> Model for Message<'a> {
    ghost use Rattle.std.specs.Prelude.{ℕ, List, ◌++◌};

    ghost Value = { List ℕ };

    ghost view = { λ m. m.front.now ++ m.rest.now };
}

impl<'a> Message<'a> {
    /// A message that stands in one piece.
    pub(crate) fn whole(bytes: &'a [u8]) -> Message<'a>
        ensures { result ≡ bytes.now }
    {
        Message {
            front: bytes,
            rest: &[],
        }
    }

    /// A message of two parts.
    pub(crate) fn of_parts(front: &'a [u8], rest: &'a [u8]) -> Message<'a>
        ensures { result ≡ front.now ++ rest.now }
    {
        Message { front, rest }
    }

    /// Its two parts, of which the second may be empty: a hash takes in one and then the other, and nothing is copied.
    pub fn parts(&self) -> (&'a [u8], &'a [u8])
        ensures { result.0.now ++ result.1.now ≡ self.now }
    {
        (self.front, self.rest)
    }

    /// A copy in one piece: linear in the number of bytes, in time and memory.
    pub fn copy(&self, alloc: Global) -> Result<Bytes, AllocError>
        ensures { IfOk result (λ copied. copied ≡ self.now) }
    {
        let room = self.front.len().saturating_add(self.rest.len());
        let mut bytes = Vec::with_capacity(alloc, room)?;
        bytes.extend_from_slice(self.front)?;
        bytes.extend_from_slice(self.rest)?;
        Ok(Bytes::from_vec(bytes))
    }
}
