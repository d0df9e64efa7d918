ghost use Rattle.std.specs.Prelude.{◌≡◌, ℕ, List, Option, Some, None, IfOk, Ok, Err};
ghost use Rattle.values.specs.Memory.{GivesUnless};
ghost use Rattle.transaction.specs.declared.identity.Identity.{Identity};
ghost use Rattle.transaction.specs.declared.transaction.Tx.{Tx};
ghost use Rattle.transaction.specs.declared.fault.TxFault.TheVariants.{Form, Memory};
ghost use Rattle.transaction.specs.Grammar.{SpellsIdentity, SpellsTx};
ghost use Rattle.transaction.specs.Limits.{max_endorsements};
ghost use Rattle.transaction.specs.Decoded.{tx_of};
ghost use Rattle.transaction.specs.Combined.{byte_at, optional_at, counted_at, few_at};
ghost use Rattle.transaction.specs.Reading.{Gives, role_of, bool_of, identity_at, version_at, read_at, result_at, range_at, write_at, policy_write_at, namespace_at, endorsement_at, tx_at, all_at, whole_tx_at};

use crate::fault::TxFault;
use crate::field::{
    Field, read_bound, read_bytes8, read_bytes16, read_bytes32, read_fields, read_key, read_list,
    read_name, read_u8, read_u32, read_u64,
};
use crate::identity::{Identity, Role};
use crate::limits::{MAX_ENDORSEMENTS, MAX_TX_BYTES};
use crate::opening::{OpeningFields, read_opening};
use crate::spelled::SpelledTx;
use crate::transaction::{
    Endorsement, KeyVersion, NsSet, PolicyWrite, Range, Read, Tx, Version, Write,
};
use std::alloc::Global;
use values::{Items, Slice};

fn read_role(bytes: &[u8]) -> Result<(Role, &[u8]), TxFault>
    ensures { Gives (λ x. (x.0, x.1.now)) result (byte_at role_of bytes.now) }
{
    match bytes {
        [0, rest @ ..] => Ok((Role::Admin, rest)),
        [1, rest @ ..] => Ok((Role::Client, rest)),
        [2, rest @ ..] => Ok((Role::Peer, rest)),
        [3, rest @ ..] => Ok((Role::Orderer, rest)),
        _ => Err(TxFault::Form),
    }
}

fn read_bool(bytes: &[u8]) -> Result<(bool, &[u8]), TxFault>
    ensures { Gives (λ x. (x.0, x.1.now)) result (byte_at bool_of bytes.now) }
{
    match bytes {
        [0, rest @ ..] => Ok((false, rest)),
        [1, rest @ ..] => Ok((true, rest)),
        _ => Err(TxFault::Form),
    }
}

#[tactic(auto, unfolding(crate::specs::Reading::identity_at))]
pub(crate) fn read_identity(bytes: &[u8]) -> Result<(Identity<'_>, &[u8]), TxFault>
    ensures { Gives (λ x. (x.0, x.1.now)) result (identity_at bytes.now) }
{
    let (org, rest) = read_name(bytes)?;
    let (role, rest) = read_role(rest)?;
    let (label, rest) = read_bytes8(rest)?;
    Ok((Identity { org, role, label }, rest))
}

#[tactic(auto, unfolding(crate::specs::Reading::version_at))]
fn read_version(bytes: &[u8]) -> Result<(Version, &[u8]), TxFault>
    ensures { Gives (λ x. (x.0, x.1.now)) result (version_at bytes.now) }
{
    let (block, rest) = read_u64(bytes)?;
    let (tx, rest) = read_u32(rest)?;
    Ok((Version { block, tx }, rest))
}

fn read_optional_version(bytes: &[u8]) -> Result<(Option<Version>, &[u8]), TxFault>
    ensures { Gives (λ x. (x.0, x.1.now)) result (optional_at version_at bytes.now) }
{
    match bytes {
        [0, rest @ ..] => Ok((None, rest)),
        [1, rest @ ..] => {
            let (version, rest) = read_version(rest)?;
            Ok((Some(version), rest))
        }
        _ => Err(TxFault::Form),
    }
}

fn read_optional_bytes32(bytes: &[u8]) -> Result<(Option<Slice<'_>>, &[u8]), TxFault>
    ensures { Gives (λ x. (x.0, x.1.now)) result (optional_at (counted_at 4) bytes.now) }
{
    match bytes {
        [0, rest @ ..] => Ok((None, rest)),
        [1, rest @ ..] => {
            let (value, rest) = read_bytes32(rest)?;
            Ok((Some(value), rest))
        }
        _ => Err(TxFault::Form),
    }
}

fn read_optional_bytes16(bytes: &[u8]) -> Result<(Option<Slice<'_>>, &[u8]), TxFault>
    ensures { Gives (λ x. (x.0, x.1.now)) result (optional_at (counted_at 2) bytes.now) }
{
    match bytes {
        [0, rest @ ..] => Ok((None, rest)),
        [1, rest @ ..] => {
            let (text, rest) = read_bytes16(rest)?;
            Ok((Some(text), rest))
        }
        _ => Err(TxFault::Form),
    }
}

impl<'a> Field<'a> for Read<'a> {
    const LEAST_BYTES: usize = 4;

    ghost read_at = { λ bytes. read_at bytes };

    #[tactic(auto, unfolding(crate::specs::Reading::read_at))]
    fn read(_alloc: Global, bytes: &'a [u8]) -> Result<(Read<'a>, &'a [u8]), TxFault> {
        let (key, rest) = read_key(bytes)?;
        let (version, rest) = read_optional_version(rest)?;
        Ok((Read { key, version }, rest))
    }
}

impl<'a> Field<'a> for KeyVersion<'a> {
    const LEAST_BYTES: usize = 15;

    ghost read_at = { λ bytes. result_at bytes };

    #[tactic(auto, unfolding(crate::specs::Reading::result_at))]
    fn read(_alloc: Global, bytes: &'a [u8]) -> Result<(KeyVersion<'a>, &'a [u8]), TxFault> {
        let (key, rest) = read_key(bytes)?;
        let (version, rest) = read_version(rest)?;
        Ok((KeyVersion { key, version }, rest))
    }
}

impl<'a> Field<'a> for Range<'a> {
    const LEAST_BYTES: usize = 7;

    ghost read_at = { λ bytes. range_at bytes };

    #[tactic(auto, unfolding(crate::specs::Reading::range_at))]
    fn read(alloc: Global, bytes: &'a [u8]) -> Result<(Range<'a>, &'a [u8]), TxFault> {
        let (start, rest) = read_bound(bytes)?;
        let (end, rest) = read_bound(rest)?;
        let (exhausted, rest) = read_bool(rest)?;
        let (results, rest) = read_list::<KeyVersion>(alloc, rest)?;
        let range = Range {
            start,
            end,
            exhausted,
            results,
        };
        Ok((range, rest))
    }
}

impl<'a> Field<'a> for Write<'a> {
    const LEAST_BYTES: usize = 4;

    ghost read_at = { λ bytes. write_at bytes };

    #[tactic(auto, unfolding(crate::specs::Reading::write_at))]
    fn read(_alloc: Global, bytes: &'a [u8]) -> Result<(Write<'a>, &'a [u8]), TxFault> {
        let (key, rest) = read_key(bytes)?;
        let (value, rest) = read_optional_bytes32(rest)?;
        Ok((Write { key, value }, rest))
    }
}

impl<'a> Field<'a> for PolicyWrite<'a> {
    const LEAST_BYTES: usize = 4;

    ghost read_at = { λ bytes. policy_write_at bytes };

    #[tactic(auto, unfolding(crate::specs::Reading::policy_write_at))]
    fn read(_alloc: Global, bytes: &'a [u8]) -> Result<(PolicyWrite<'a>, &'a [u8]), TxFault> {
        let (key, rest) = read_key(bytes)?;
        let (policy, rest) = read_optional_bytes16(rest)?;
        Ok((PolicyWrite { key, policy }, rest))
    }
}

impl<'a> Field<'a> for NsSet<'a> {
    const LEAST_BYTES: usize = 10;

    ghost read_at = { λ bytes. namespace_at bytes };

    #[tactic(auto, unfolding(crate::specs::Reading::namespace_at))]
    fn read(alloc: Global, bytes: &'a [u8]) -> Result<(NsSet<'a>, &'a [u8]), TxFault> {
        let (name, rest) = read_name(bytes)?;
        let (reads, rest) = read_list::<Read>(alloc, rest)?;
        let (ranges, rest) = read_list::<Range>(alloc, rest)?;
        let (writes, rest) = read_list::<Write>(alloc, rest)?;
        let (policy_writes, rest) = read_list::<PolicyWrite>(alloc, rest)?;
        let namespace = NsSet {
            name,
            reads,
            ranges,
            writes,
            policy_writes,
        };
        Ok((namespace, rest))
    }
}

impl<'a> Field<'a> for Endorsement<'a> {
    const LEAST_BYTES: usize = 6;

    ghost read_at = { λ bytes. endorsement_at bytes };

    #[tactic(auto, unfolding(crate::specs::Reading::endorsement_at))]
    fn read(_alloc: Global, bytes: &'a [u8]) -> Result<(Endorsement<'a>, &'a [u8]), TxFault> {
        let (endorser, rest) = read_identity(bytes)?;
        let (signature, rest) = read_bytes16(rest)?;
        let endorsement = Endorsement {
            endorser,
            signature,
        };
        Ok((endorsement, rest))
    }
}

pub(crate) fn read_endorsements(
    alloc: Global,
    bytes: &[u8],
) -> Result<(Items<Endorsement<'_>>, &[u8]), TxFault>
    ensures { Gives (λ x. (x.0, x.1.now)) result (few_at max_endorsements endorsement_at bytes.now) }
{
    let (count, rest) = read_u8(bytes)?;
    if MAX_ENDORSEMENTS < count as usize {
        return Err(TxFault::Form);
    }
    read_fields::<Endorsement>(alloc, u16::from(count), rest)
}

#[tactic(auto, using(crate::proofs::OpeningLaws::body_opens), unfolding(crate::specs::Reading::tx_at))]
fn read_tx(alloc: Global, bytes: &[u8]) -> Result<(Tx<'_>, &[u8]), TxFault>
    ensures { Gives (λ x. (x.0, x.1.now)) result (tx_at bytes.now) }
{
    let (opening, rest) = read_opening(bytes)?;
    let (chaincode, rest) = read_name(rest)?;
    let (namespaces, rest) = read_list::<NsSet>(alloc, rest)?;
    let (endorsements, rest) = read_endorsements(alloc, rest)?;
    let (signature, rest) = read_bytes16(rest)?;
    let OpeningFields {
        channel,
        id,
        creator,
        nonce,
    } = opening;
    let tx = Tx {
        channel,
        id,
        creator,
        nonce,
        chaincode,
        namespaces,
        endorsements,
        signature,
    };
    Ok((tx, rest))
}

#[tactic(auto, unfolding(crate::specs::Reading::whole_tx_at))]
pub(crate) fn read_bare_tx(alloc: Global, bytes: &[u8]) -> Result<Tx<'_>, TxFault>
    ensures { Gives (λ tx. tx) result (whole_tx_at bytes.now) }
{
    if MAX_TX_BYTES < bytes.len() {
        return Err(TxFault::Form);
    }
    let (tx, rest) = read_tx(alloc, bytes)?;
    if !rest.is_empty() {
        return Err(TxFault::Form);
    }
    Ok(tx)
}

fn read_whole_tx(alloc: Global, bytes: &[u8]) -> Result<SpelledTx<'_>, TxFault>
    ensures { Gives (λ tx. tx) result (whole_tx_at bytes.now) }
{
    match read_bare_tx(alloc, bytes) {
        Ok(tx) => Ok(SpelledTx::new(tx, bytes)),
        Err(fault) => Err(fault),
    }
}

fn read_whole_identity(bytes: &[u8]) -> Result<Identity<'_>, TxFault>
    ensures { Gives (λ i. i) result (all_at identity_at bytes.now) }
{
    let (identity, rest) = read_identity(bytes)?;
    if !rest.is_empty() {
        return Err(TxFault::Form);
    }
    Ok(identity)
}

/// The identity that the bytes spell, all of the bytes, which it lends. One pass.
pub fn decode_identity(bytes: &[u8]) -> Result<Identity<'_>, TxFault>
    // The bytes spell what is answered, no other identity has this spelling, and it has no other.
    ensures found { IfOk result (λ i. SpellsIdentity bytes.now i) }
    ensures one_identity { IfOk result (λ i. (other : Identity) → SpellsIdentity bytes.now other → other ≡ i) }
    ensures one_spelling { IfOk result (λ i. (other : List ℕ) → SpellsIdentity other i → other ≡ bytes.now) }
    // An identity that is spelled is answered, and Form only where none is.
    ensures spelled { (i : Identity) → SpellsIdentity bytes.now i → GivesUnless Memory result (Ok i) }
    ensures form { result ≡ Err Form → (i : Identity) → ¬ SpellsIdentity bytes.now i }
{
    read_whole_identity(bytes)
}

/// The transaction that the bytes spell, all of the bytes, which it lends. One pass; nothing is copied but the id, and
/// no count or length is believed before the bytes are there.
///
/// Memory is for its lists alone: at most 12 bytes for each byte of a transaction, and at most 23 for each byte of what
/// is refused, beside what the heap adds to each. A list gets its room once, for no more items than the bytes behind
/// its count can spell.
pub fn decode_tx(alloc: Global, bytes: &[u8]) -> Result<SpelledTx<'_>, TxFault>
    // The bytes spell what is answered, no other transaction has this spelling, and it has no other.
    ensures found { IfOk result (λ tx. SpellsTx bytes.now tx) }
    ensures one_tx { IfOk result (λ tx. (other : Tx) → SpellsTx bytes.now other → other ≡ tx) }
    ensures one_spelling { IfOk result (λ tx. (other : List ℕ) → SpellsTx other tx → other ≡ bytes.now) }
    // A transaction that is spelled is answered, and Form only where none is.
    ensures spelled { (tx : Tx) → SpellsTx bytes.now tx → GivesUnless Memory result (Ok tx) }
    ensures form { result ≡ Err Form → (tx : Tx) → ¬ SpellsTx bytes.now tx }
    // Both once more, in terms of the function that the rules of validation name.
    ensures reading { IfOk result (λ tx. tx_of bytes.now ≡ Some tx) }
    ensures no_reading { result ≡ Err Form → tx_of bytes.now ≡ None }
{
    read_whole_tx(alloc, bytes)
}
