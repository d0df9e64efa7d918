ghost use Rattle.std.specs.Prelude.{◌≡◌, ◌≢◌, ◌≤◌, ◌++◌, length, take, IfOk, OnOk, Ok, Err};
ghost use Rattle.std.specs.List.{list_any};
ghost use Rattle.transaction.specs.Same.{is_same_identity};
ghost use Rattle.transaction.specs.declared.fault.EncodeFault.TheVariants.{TooLarge};
ghost use Rattle.transaction.specs.Grammar.{body_bytes, identity_bytes, IsIdentity, AreEndorsements};
ghost use Rattle.transaction.specs.UpdateGrammar.{update_body_bytes};
ghost use Rattle.transaction.specs.Spelled.{IsSpelled, IsSpelledUpdate};
ghost use Rattle.policy_eval.specs.Signers.{signers_of};
ghost use Rattle.policy_eval.specs.UpdateSigners.{update_signers_of};
ghost use Rattle.policy_eval.specs.Over.{signers_over};

use crate::signer_list::Signers;
use crate::verify::Verify;
use std::alloc::{AllocError, Global};
use transaction::{EncodeFault, Endorsement, Identity, Tx, Update};
use values::Bytes;

// As many as an identity has at most: a message for it is made in one growth.
const MOST_IDENTITY_BYTES: usize = 322;

/// What was encoded, where it isn't too large.
fn bytes_of(encoded: Result<Bytes, EncodeFault>) -> Result<Vec<u8>, AllocError>
    requires { encoded ≢ Err TooLarge }
    ensures { IfOk result (λ bytes. encoded ≡ Ok bytes.items) }
{
    match encoded {
        Ok(bytes) => Ok(bytes.into_vec()),
        Err(EncodeFault::Memory) => Err(AllocError),
        Err(EncodeFault::TooLarge) => unreachable!(),
    }
}

/// The bytes of the body, with which each endorser's message begins.
fn body(alloc: Global, tx: &Tx<'_>) -> Result<Vec<u8>, AllocError>
    requires { IsSpelled tx.now }
    ensures { IfOk result (λ bytes. bytes.items ≡ body_bytes tx.now) }
{
    bytes_of(transaction::encode_body(alloc, tx))
}

fn update_body(alloc: Global, update: &Update<'_>) -> Result<Vec<u8>, AllocError>
    requires { IsSpelledUpdate update.now }
    ensures { IfOk result (λ bytes. bytes.items ≡ update_body_bytes update.now) }
{
    bytes_of(transaction::encode_update_body(alloc, update))
}

/// Puts the identity's bytes in the place of all that follows the body.
fn address(
    message: &mut Vec<u8>,
    body_len: usize,
    identity: &Identity<'_>,
) -> Result<(), AllocError>
    requires { IsIdentity identity.now }
    ensures { OnOk result (message.new.items ≡ take body_len message.old.items ++ identity_bytes identity.now) }
{
    message.truncate(body_len);
    match transaction::append_identity(message, identity) {
        Ok(()) => Ok(()),
        Err(EncodeFault::Memory) => Err(AllocError),
        Err(EncodeFault::TooLarge) => unreachable!(),
    }
}

fn contains(signers: &[Identity<'_>], identity: &Identity<'_>) -> bool
    ensures { result ≡ list_any (λ signer. is_same_identity signer identity.now) signers.now }
{
    signers.iter().any(|signer| signer.is_same(identity))
}

/// Whether the verifier accepts the endorser's signature over the body and the endorser's bytes.
fn has_signed<V: Verify>(
    endorsement: &Endorsement<'_>,
    message: &mut Vec<u8>,
    body_len: usize,
    verifier: &V,
) -> Result<bool, AllocError>
    requires endorser { IsIdentity endorsement.now.endorser }
    requires body { body_len ≤ length message.old.items }
    ensures value { IfOk result (λ signed. signed ≡ V.accepts verifier.now endorsement.now.endorser (take body_len message.old.items ++ identity_bytes endorsement.now.endorser) endorsement.now.signature) }
    ensures kept { OnOk result (take body_len message.new.items ≡ take body_len message.old.items) }
    ensures long { OnOk result (body_len ≤ length message.new.items) }
{
    address(message, body_len, &endorsement.endorser)?;
    Ok(verifier.verify(
        &endorsement.endorser,
        message.as_slice(),
        endorsement.signature.as_slice(),
    ))
}

/// Who signed of these endorsements, over a message that has the body so far.
fn signers_from<'a, V: Verify>(
    alloc: Global,
    endorsements: &[Endorsement<'a>],
    mut message: Vec<u8>,
    verifier: &V,
) -> Result<Signers<'a>, AllocError>
    requires { AreEndorsements endorsements.now }
    ensures { IfOk result (λ signers. signers ≡ signers_over (V.accepts verifier.now) message.items endorsements.now) }
{
    let body_len = message.len();
    let mut identities = Vec::new(alloc);
    for endorsement in endorsements {
        if !contains(identities.as_slice(), &endorsement.endorser)
            && has_signed(endorsement, &mut message, body_len, verifier)?
        {
            identities.push(endorsement.endorser.reborrow())?;
        }
    }
    Ok(Signers { identities })
}

/// The endorsers whose signature over the body and their own identity's bytes the verifier accepts, each
/// once, in the order of their first accepted signatures.
///
/// Encodes the body once, calls the verifier at most once for each endorsement, and not at all for one
/// whose endorser has signed already. Besides, time is linear in the body, and each endorser is compared
/// with the signers so far. Memory: one buffer of the body and the longest identity, and the signers.
pub fn signers<'a, V: Verify>(
    alloc: Global,
    tx: &Tx<'a>,
    verifier: &V,
) -> Result<Signers<'a>, AllocError>
    requires { IsSpelled tx.now }
    ensures { IfOk result (λ signers. signers ≡ signers_of (V.accepts verifier.now) tx.now) }
{
    signers_from(
        alloc,
        tx.endorsements.as_slice(),
        body(alloc, tx)?,
        verifier,
    )
}

/// The endorsers whose signature the verifier accepts, of a transaction whose body's bytes are at hand: [`signers`],
/// but it copies the body, with room for the longest identity behind it, and doesn't encode it.
pub fn signers_with_body<'a, V: Verify>(
    alloc: Global,
    tx: &Tx<'a>,
    body: &[u8],
    verifier: &V,
) -> Result<Signers<'a>, AllocError>
    requires spelled { IsSpelled tx.now }
    requires body { body.now ≡ body_bytes tx.now }
    ensures { IfOk result (λ signers. signers ≡ signers_of (V.accepts verifier.now) tx.now) }
{
    let room = body.len().saturating_add(MOST_IDENTITY_BYTES);
    let mut message = Vec::with_capacity(alloc, room)?;
    message.extend_from_slice(body)?;
    signers_from(alloc, tx.endorsements.as_slice(), message, verifier)
}

/// The endorsers of an update whose signature over its body and their own identity's bytes the verifier accepts, each
/// once, in the order of their first accepted signatures. Costs what [`signers`] does.
pub fn update_signers<'a, V: Verify>(
    alloc: Global,
    update: &Update<'a>,
    verifier: &V,
) -> Result<Signers<'a>, AllocError>
    requires { IsSpelledUpdate update.now }
    ensures { IfOk result (λ signers. signers ≡ update_signers_of (V.accepts verifier.now) update.now) }
{
    signers_from(
        alloc,
        update.endorsements.as_slice(),
        update_body(alloc, update)?,
        verifier,
    )
}
