//! Signatures by the keys of a book.
ghost use Rattle.std.specs.Prelude.{◌≡◌, ◌++◌, map, IfOk, OnOk};
ghost use Rattle.std.specs.List.{AllByRecursion};
ghost use Rattle.transaction.specs.Grammar.{identity_bytes, IsIdentity};
ghost use Rattle.drafts.specs.DraftItem.{signed_by, endorsement_by};

use key_book::KeyBook;
use std::alloc::{AllocError, Global};
use std::marker::Model;
use transaction::{
    EncodeFault, Endorsement, Identity, OwnedIdentity, append_identity, encode_identity,
};
use values::{Bytes, Items};

// The signature over a message, no bytes if the identity isn't in the book.
pub(crate) fn sign(
    alloc: Global,
    keys: &KeyBook,
    identity: &Identity<'_>,
    message: &[u8],
) -> Result<Bytes, AllocError>
    ensures { IfOk result (λ signature. signature ≡ signed_by keys.now identity.now message.now) }
{
    match keys.sign(identity, message) {
        Some(signature) => Bytes::from_slice(alloc, &signature),
        None => Ok(Bytes::from_vec(Vec::new(alloc))),
    }
}

pub(crate) fn identity_bytes(alloc: Global, identity: &Identity<'_>) -> Result<Bytes, AllocError>
    requires { IsIdentity identity.now }
    ensures { IfOk result (λ bytes. bytes ≡ identity_bytes identity.now) }
{
    match encode_identity(alloc, identity) {
        Ok(bytes) => Ok(bytes),
        Err(EncodeFault::Memory) => Err(AllocError),
        Err(EncodeFault::TooLarge) => unreachable!(),
    }
}

fn add_identity(message: &mut Vec<u8>, identity: &Identity<'_>) -> Result<(), AllocError>
    requires { IsIdentity identity.now }
    ensures { OnOk result (message.new.items ≡ message.old.items ++ identity_bytes identity.now) }
{
    match append_identity(message, identity) {
        Ok(()) => Ok(()),
        Err(EncodeFault::Memory) => Err(AllocError),
        Err(EncodeFault::TooLarge) => unreachable!(),
    }
}

// An endorser with its signature.
#[derive(Drop)]
pub(crate) struct Signed<'a> {
    endorser: Identity<'a>,
    signature: Bytes,
}

impl<'a> Model for Signed<'a> {
    ghost use Rattle.transaction.specs.declared.transaction.Endorsement.{Endorsement};

    ghost Value = { Endorsement };

    ghost view = { λ s. record { endorser = s.endorser; signature = s.signature } };
}

impl<'a> Signed<'a> {
    fn lend<'b>(&'b self) -> Endorsement<'b>
        ensures { result ≡ self.now }
    {
        Endorsement {
            endorser: self.endorser.reborrow(),
            signature: self.signature.lend(),
        }
    }
}

// Signs the body followed by the endorser's bytes, which are appended to it meanwhile.
fn endorse<'a>(
    alloc: Global,
    keys: &KeyBook,
    body: &mut Vec<u8>,
    endorser: &'a OwnedIdentity,
) -> Result<Signed<'a>, AllocError>
    requires { IsIdentity endorser.now }
    ensures signed { IfOk result (λ signed. signed ≡ endorsement_by keys.now body.old.items endorser.now) }
    ensures kept { OnOk result (body.new.items ≡ body.old.items) }
{
    let len = body.len();
    let endorser = endorser.lend();
    add_identity(body, &endorser)?;
    let signature = sign(alloc, keys, &endorser, body.as_slice())?;
    body.truncate(len);
    Ok(Signed {
        endorser,
        signature,
    })
}

// The endorsements of a transaction or an update with this body.
pub(crate) fn endorse_all<'a>(
    alloc: Global,
    keys: &KeyBook,
    body: Vec<u8>,
    endorsers: &'a [OwnedIdentity],
) -> Result<Vec<Signed<'a>>, AllocError>
    requires { AllByRecursion IsIdentity endorsers.now }
    ensures { IfOk result (λ signed. signed.items ≡ map (endorsement_by keys.now body.items) endorsers.now) }
{
    let mut message = body;
    let mut all = Vec::new(alloc);
    for endorser in endorsers {
        all.push(endorse(alloc, keys, &mut message, endorser)?)?;
    }
    Ok(all)
}

pub(crate) fn lend_all<'a>(
    alloc: Global,
    signed: &'a [Signed<'_>],
) -> Result<Items<Endorsement<'a>>, AllocError>
    ensures { IfOk result (λ lent. lent ≡ signed.now) }
{
    let mut lent = Items::new(alloc);
    for one in signed {
        lent.push(one.lend())?;
    }
    Ok(lent)
}
