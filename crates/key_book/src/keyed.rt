ghost use Rattle.std.specs.Prelude.{◌≡◌, IfOk, IfSome, IsTrue};
ghost use Rattle.key_book.specs.BookText.{key_of_digits};
ghost use Rattle.key_book.specs.Entry.{is_key};

use crate::hmac::HashedPads;
use crate::identity_text::read_identity;
use hex::FromHexError;
use std::alloc::{AllocError, Global};
use std::marker::Model;
use text_lines::first_part;
use transaction::{Identity, OwnedIdentity};
use values::{Bytes, Hash};

// A key has 1 to 64 bytes, of two digits each.
const MIN_DIGITS: usize = 2;

pub(crate) const MAX_DIGITS: usize = 128;

fn read_key(alloc: Global, digits: &[u8]) -> Result<Option<Bytes>, AllocError>
    ensures key { IfOk result (λ key. key ≡ key_of_digits digits.now) }
    ensures size { IfOk result (λ key. IfSome key (λ k. IsTrue (is_key k))) }
{
    if digits.len() < MIN_DIGITS || digits.len() > MAX_DIGITS {
        return Ok(None);
    }
    match hex::decode(alloc, digits) {
        Ok(key) => Ok(Some(Bytes::from_vec(key))),
        Err(FromHexError::OutOfMemory) => Err(AllocError),
        Err(_) => Ok(None),
    }
}

/// An identity, and the key of 1 to 64 bytes that it signs with.
#[derive(Drop)]
pub struct Keyed {
    identity: OwnedIdentity,
    key: Bytes,
    pads: HashedPads,
}

impl Model for Keyed {
    ghost use Rattle.std.specs.Prelude.{IsTrue};
    ghost use Rattle.key_book.specs.Entry.{Entry, is_key};
    ghost use Rattle.key_book.specs.Pads.{AreHashedPads};

    ghost Value = { Entry };

    ghost view = { λ k. record { identity = k.identity; key = k.key } };

    ghost invariant = { λ k. IsTrue (is_key k.key) × AreHashedPads k.key k.pads };
}

impl Keyed {
    ghost use Rattle.key_book.specs.BookText.{entry_of};
    ghost use Rattle.key_book.specs.Hmac.{hmac};

    /// The entry that a line `IDENTITY HEXKEY` gives, or `None` where the line has another form.
    pub fn read(alloc: Global, line: &[u8]) -> Result<Option<Keyed>, AllocError>
        ensures { IfOk result (λ entry. entry ≡ entry_of line.now) }
    {
        let (identity, digits) = first_part(line);
        let Some(identity) = read_identity(alloc, identity)? else {
            return Ok(None);
        };
        let Some(key) = read_key(alloc, digits)? else {
            return Ok(None);
        };
        let pads = HashedPads::new(key.as_slice());
        Ok(Some(Keyed {
            identity,
            key,
            pads,
        }))
    }

    /// The identity, lent.
    pub fn identity(&self) -> Identity<'_>
        ensures { result ≡ self.now.identity }
    {
        self.identity.lend()
    }

    /// HMAC-SHA-256 of a message under the key, whose paddings were hashed when it was read.
    pub fn sign(&self, message: &[u8]) -> Hash
        ensures { result ≡ hmac self.now.key message.now }
    {
        self.pads.hmac(message)
    }
}
