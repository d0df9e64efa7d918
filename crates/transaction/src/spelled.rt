ghost use Rattle.std.specs.Prelude.{◌≡◌};
ghost use Rattle.transaction.specs.Grammar.{identity_bytes, body_bytes, SpellsTx, SpellsSigned};
ghost use Rattle.transaction.specs.Spelled.{IsSpelled};

use crate::cut::{before_endorsements, before_signature, identity_behind};
use crate::limits::ID_BYTES;
use crate::transaction::Tx;
use std::marker::Model;

/// A transaction with the bytes that spell it, both lent. A contract sees the transaction.
///
/// It lends the parts of its bytes that are signed and hashed, so that they can't be those of another transaction.
#[derive(Drop)]
pub struct SpelledTx<'a> {
    tx: Tx<'a>,
    bytes: &'a [u8],
}

impl<'a> Model for SpelledTx<'a> {
    ghost use Rattle.transaction.specs.declared.transaction.Tx.{Tx};
    ghost use Rattle.transaction.specs.Grammar.{SpellsTx};

    ghost Value = { Tx };

    ghost view = { λ s. s.tx };

    ghost invariant = { λ s. SpellsTx s.bytes.now s.tx };
}

impl<'a> SpelledTx<'a> {
    pub(crate) fn new(tx: Tx<'a>, bytes: &'a [u8]) -> SpelledTx<'a>
        requires { SpellsTx bytes.now tx }
        ensures { result ≡ tx.entry }
    {
        SpelledTx { tx, bytes }
    }

    /// The transaction.
    pub fn tx(&self) -> &Tx<'a>
        ensures value { result.now ≡ self.now }
        ensures spelled { IsSpelled result.now }
    {
        &self.tx
    }

    /// The transaction, without its bytes.
    pub fn into_tx(self) -> Tx<'a>
        ensures value { result ≡ self.entry }
        ensures spelled { IsSpelled result }
    {
        self.tx
    }

    /// What the creator signs: all bytes before the creator's signature. Constant time, no copy.
    pub fn creator_message(&self) -> &'a [u8]
        ensures { SpellsSigned result.now self.now }
    {
        before_signature(self.bytes, &self.tx.signature)
    }

    /// The body, with which begins what each endorser signs. Linear in the number of endorsements, no copy.
    pub fn body(&self) -> &'a [u8]
        ensures { result.now ≡ body_bytes self.now }
    {
        before_endorsements(self.creator_message(), self.tx.endorsements.as_slice())
    }

    /// The creator's identity bytes, which the id is made of. Constant time, no copy.
    pub fn creator_bytes(&self) -> &'a [u8]
        ensures { result.now ≡ identity_bytes self.now.creator }
    {
        let start = 1 + self.tx.channel.len() + ID_BYTES;
        identity_behind(self.bytes, start, &self.tx.creator)
    }
}
