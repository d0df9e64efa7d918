ghost use Rattle.std.specs.Prelude.{◌≡◌, ◌⊎◌, ◌↔◌, List, IsTrue, IfSome, IfOk, IfErr, is_some};
ghost use Rattle.std.specs.Option.{option_copied, option_map};
ghost use Rattle.values.specs.Memory.{GivesUnless};
ghost use Rattle.key_book.specs.BookText.{book_of};
ghost use Rattle.key_book.specs.declared.fault.KeyBookFault.TheVariants.{Memory};
ghost use Rattle.key_book.specs.Entry.{Entry};
ghost use Rattle.key_book.specs.Book.{key_in_book, signature_of, accepts};

use crate::fault::KeyBookFault;
use crate::keyed::Keyed;
use policy_eval::Verify;
use std::alloc::Global;
use std::marker::Model;
use text_lines::Statements;
use transaction::Identity;
use values::Hash;

fn entry_of<'a>(entries: &'a [Keyed], identity: &Identity<'_>) -> Option<&'a Keyed>
    ensures { option_map (λ e. e.now.key) result ≡ key_in_book identity.now entries.now }
{
    for entry in entries {
        if entry.identity().is_same(identity) {
            return Some(entry);
        }
    }
    None
}

fn read_entries(alloc: Global, text: &str) -> Result<Vec<Keyed>, KeyBookFault>
    ensures ok { IfOk result (λ entries. book_of text.now ≡ Ok entries.items) }
    ensures err { IfErr result (λ fault. (fault ≡ Memory) ⊎ (book_of text.now ≡ Err fault)) }
{
    let mut entries = Vec::new(alloc);
    for statement in Statements::new(text) {
        let Some(entry) = Keyed::read(alloc, statement.bytes)? else {
            return Err(KeyBookFault::Line(statement.line));
        };
        if entry_of(&entries, &entry.identity()).is_some() {
            return Err(KeyBookFault::Line(statement.line));
        }
        entries.push(entry)?;
    }
    Ok(entries)
}

/// The keys that identities sign with, shared by all who sign and all who verify: a stand-in for
/// certificates. A contract sees the list of its entries.
#[derive(Drop)]
pub struct KeyBook {
    entries: Vec<Keyed>,
}

impl Model for KeyBook {
    ghost Value = { List Entry };

    ghost view = { λ b. b.entries.items };
}

impl KeyBook {
    /// Reads a text with a line `ORG:ROLE:LABEL HEXKEY` for each entry. ORG is a name, ROLE one of
    /// `admin`, `client`, `peer` and `orderer`, LABEL a word that spells at most 255 bytes, and
    /// HEXKEY an even number, 2 to 128, of hexadecimal digits of either case. The fault is `Line`
    /// with the first line that has another form or an identity that an earlier one has, unless
    /// memory runs out before. Linear in the text and in the pairs of entries; the memory is linear
    /// in the text.
    pub fn read(alloc: Global, text: &str) -> Result<KeyBook, KeyBookFault>
        ensures { GivesUnless Memory result (book_of text.now) }
    {
        Ok(KeyBook {
            entries: read_entries(alloc, text)?,
        })
    }

    /// Whether the identity is in the book, so that it can sign. Linear in the book's entries; takes no memory.
    pub fn contains(&self, identity: &Identity<'_>) -> bool
        ensures { result ≡ is_some (key_in_book identity.now self.now) }
    {
        entry_of(self.entries.as_slice(), identity).is_some()
    }

    /// The 32 bytes by which the identity signs the message, its HMAC-SHA-256 (RFC 2104) under the
    /// identity's key, or `None` where the identity isn't in the book. Linear in the book's entries
    /// and the message; takes no memory.
    pub fn sign(&self, identity: &Identity<'_>, message: &[u8]) -> Option<Hash>
        ensures value { result ≡ signature_of self.now identity.now message.now }
        ensures accepted { IfSome result
            (λ signed. IsTrue (accepts self.now identity.now message.now signed)) }
    {
        let entry = entry_of(self.entries.as_slice(), identity)?;
        Some(entry.sign(message))
    }
}

impl Verify for KeyBook {
    ghost accepts = { accepts };

    /// Whether the signature is the one that `sign` gives. Linear in the book's entries and the
    /// message; takes no memory. How long the comparison takes depends on the signature.
    fn verify(&self, identity: &Identity<'_>, message: &[u8], signature: &[u8]) -> bool
        ensures value { result ≡ accepts self.now identity.now message.now signature.now }
        ensures exactly { IsTrue result
            ↔ (signature_of self.now identity.now message.now ≡ Some signature.now) }
    {
        match self.sign(identity, message) {
            Some(signed) => signed.as_slice() == signature,
            None => false,
        }
    }
}
