ghost use Rattle.std.specs.Prelude.{◌≡◌, ◌≤◌, ◌<◌, ◌+◌, ◌^◌, ℕ, List, ◌++◌, ◌∷◌, length, IfOk, IfErr, IfSome, IsTrue, OnOk, OnErr, Ok, Err};
ghost use Rattle.std.specs.List.{AllByRecursion};
ghost use Rattle.std.specs.Vec.{vec_len, vec_capacity};
ghost use Rattle.values.specs.Name.{is_name};
ghost use Rattle.values.specs.Key.{is_key, is_bound};
ghost use Rattle.values.specs.Memory.{GivesUnless};
ghost use Rattle.transaction.specs.declared.fault.EncodeFault.TheVariants.{TooLarge, Memory};
ghost use Rattle.transaction.specs.Grammar.{counted, listed, optional, bool_byte, role_byte, identity_bytes, version_bytes, read_bytes, result_bytes, range_bytes, write_bytes, policy_write_bytes, namespace_bytes, endorsement_bytes, body_bytes, signed_bytes, whole_bytes, IsIdentity, IsVersion, IsRead, IsResult, AreItems, AreEndorsements, IsRange, IsWrite, IsPolicyWrite, IsNsSet, IsEndorsement, IsBody, IsSigned, IsWhole, SpellsIdentity, SpellsBody, SpellsSigned, SpellsTx};
ghost use Rattle.transaction.specs.Limits.{max_tx_bytes};
ghost use Rattle.transaction.specs.Putting.{Puts};

use crate::fault::EncodeFault;
use crate::identity::{Identity, Role};
use crate::limits::{MAX_ENDORSEMENTS, MAX_TX_BYTES};
use crate::opening::put_opening;
use crate::put::{
    Spelled, put_bytes8, put_bytes16, put_bytes32, put_fields, put_len8, put_list, put_u8, put_u32,
    put_u64,
};
use crate::transaction::{
    Endorsement, KeyVersion, NsSet, PolicyWrite, Range, Read, Tx, Version, Write,
};
use std::alloc::{AllocError, Global};
use values::{BoundRef, Bytes, KeyRef, NameRef, Slice};

pub(crate) fn put_name(out: &mut Vec<u8>, name: &NameRef<'_>) -> Result<(), EncodeFault>
    ensures { Puts result out.old.items out.new.items (counted 1 name.now) (IsTrue (is_name name.now)) }
{
    put_bytes8(out, name.as_slice())
}

fn put_key(out: &mut Vec<u8>, key: &KeyRef<'_>) -> Result<(), EncodeFault>
    ensures { Puts result out.old.items out.new.items (counted 2 key.now) (IsTrue (is_key key.now)) }
{
    put_bytes16(out, key.as_slice())
}

fn put_bound(out: &mut Vec<u8>, bound: &BoundRef<'_>) -> Result<(), EncodeFault>
    ensures { Puts result out.old.items out.new.items (counted 2 bound.now) (IsTrue (is_bound bound.now)) }
{
    put_bytes16(out, bound.as_slice())
}

fn role_byte(role: Role) -> u8
    ensures { result ≡ role_byte role }
{
    match role {
        Role::Admin => 0,
        Role::Client => 1,
        Role::Peer => 2,
        Role::Orderer => 3,
    }
}

// Adds bytes for which there is room.
fn extend_reserved(out: &mut Vec<u8>, bytes: &[u8])
    requires { vec_len out.old + length bytes.now ≤ vec_capacity out.old }
    ensures items { out.new.items ≡ out.old.items ++ bytes.now }
    ensures len { vec_len out.new ≡ vec_len out.old + length bytes.now }
    ensures capacity { vec_capacity out.old ≤ vec_capacity out.new }
{
    let _ = out.extend_from_slice(bytes);
}

// Adds an identity for which there is room.
fn identity_reserved(out: &mut Vec<u8>, identity: &Identity<'_>, label_len: u8)
    requires room { vec_len out.old + (3 + length identity.now.org + length identity.now.label) ≤ vec_capacity out.old }
    requires label { label_len ≡ length identity.now.label }
    ensures bytes { out.new.items ≡ out.old.items ++ identity_bytes identity.now }
    ensures fits { IsIdentity identity.now }
{
    out.push_reserved(identity.org.len() as u8);
    extend_reserved(out, identity.org.as_slice());
    out.push_reserved(role_byte(identity.role));
    out.push_reserved(label_len);
    extend_reserved(out, identity.label.as_slice());
}

pub(crate) fn put_identity(out: &mut Vec<u8>, identity: &Identity<'_>) -> Result<(), EncodeFault>
    ensures put { Puts result out.old.items out.new.items (identity_bytes identity.now) (IsIdentity identity.now) }
    ensures err { OnErr result (out.new.items ≡ out.old.items) }
{
    let Ok(label_len) = u8::try_from(identity.label.len()) else {
        return Err(EncodeFault::TooLarge);
    };
    out.reserve(3 + identity.org.len() + identity.label.len())?;
    identity_reserved(out, identity, label_len);
    Ok(())
}

fn put_version(out: &mut Vec<u8>, version: &Version) -> Result<(), EncodeFault>
    ensures { Puts result out.old.items out.new.items (version_bytes version.now) (IsVersion version.now) }
{
    put_u64(out, version.block)?;
    put_u32(out, version.tx)?;
    Ok(())
}

fn put_optional_version(out: &mut Vec<u8>, version: &Option<Version>) -> Result<(), EncodeFault>
    ensures { Puts result out.old.items out.new.items (optional version_bytes version.now) (IfSome version.now IsVersion) }
{
    match version {
        None => {
            put_u8(out, 0)?;
            Ok(())
        }
        Some(version) => {
            put_u8(out, 1)?;
            put_version(out, version)
        }
    }
}

fn put_optional32(out: &mut Vec<u8>, value: &Option<Slice<'_>>) -> Result<(), EncodeFault>
    ensures { Puts result out.old.items out.new.items (optional (counted 4) value.now) (IfSome value.now (λ value. length value < 2 ^ 32)) }
{
    match value {
        None => {
            put_u8(out, 0)?;
            Ok(())
        }
        Some(value) => {
            put_u8(out, 1)?;
            put_bytes32(out, value.as_slice())
        }
    }
}

fn put_optional16(out: &mut Vec<u8>, text: &Option<Slice<'_>>) -> Result<(), EncodeFault>
    ensures { Puts result out.old.items out.new.items (optional (counted 2) text.now) (IfSome text.now (λ text. length text < 2 ^ 16)) }
{
    match text {
        None => {
            put_u8(out, 0)?;
            Ok(())
        }
        Some(text) => {
            put_u8(out, 1)?;
            put_bytes16(out, text.as_slice())
        }
    }
}

impl Spelled for Read<'_> {
    ghost spelling = { λ r. read_bytes r };

    ghost is_within = { λ r. IsRead r };

    fn put(&self, out: &mut Vec<u8>) -> Result<(), EncodeFault> {
        put_key(out, &self.key)?;
        put_optional_version(out, &self.version)
    }
}

impl Spelled for KeyVersion<'_> {
    ghost spelling = { λ r. result_bytes r };

    ghost is_within = { λ r. IsResult r };

    fn put(&self, out: &mut Vec<u8>) -> Result<(), EncodeFault> {
        put_key(out, &self.key)?;
        put_version(out, &self.version)
    }
}

impl Spelled for Range<'_> {
    ghost spelling = { λ r. range_bytes r };

    ghost is_within = { λ r. IsRange r };

    fn put(&self, out: &mut Vec<u8>) -> Result<(), EncodeFault> {
        put_bound(out, &self.start)?;
        put_bound(out, &self.end)?;
        put_u8(out, u8::from(self.exhausted))?;
        put_list(out, self.results.as_slice())?;
        Ok(())
    }
}

impl Spelled for Write<'_> {
    ghost spelling = { λ w. write_bytes w };

    ghost is_within = { λ w. IsWrite w };

    fn put(&self, out: &mut Vec<u8>) -> Result<(), EncodeFault> {
        put_key(out, &self.key)?;
        put_optional32(out, &self.value)
    }
}

impl Spelled for PolicyWrite<'_> {
    ghost spelling = { λ w. policy_write_bytes w };

    ghost is_within = { λ w. IsPolicyWrite w };

    fn put(&self, out: &mut Vec<u8>) -> Result<(), EncodeFault> {
        put_key(out, &self.key)?;
        put_optional16(out, &self.policy)
    }
}

impl Spelled for NsSet<'_> {
    ghost spelling = { λ n. namespace_bytes n };

    ghost is_within = { λ n. IsNsSet n };

    fn put(&self, out: &mut Vec<u8>) -> Result<(), EncodeFault> {
        put_name(out, &self.name)?;
        put_list(out, self.reads.as_slice())?;
        put_list(out, self.ranges.as_slice())?;
        put_list(out, self.writes.as_slice())?;
        put_list(out, self.policy_writes.as_slice())?;
        Ok(())
    }
}

impl Spelled for Endorsement<'_> {
    ghost spelling = { λ e. endorsement_bytes e };

    ghost is_within = { λ e. IsEndorsement e };

    fn put(&self, out: &mut Vec<u8>) -> Result<(), EncodeFault> {
        put_identity(out, &self.endorser)?;
        put_bytes16(out, self.signature.as_slice())
    }
}

fn put_body(out: &mut Vec<u8>, tx: &Tx<'_>) -> Result<(), EncodeFault>
    ensures { Puts result out.old.items out.new.items (body_bytes tx.now) (IsBody tx.now) }
{
    put_opening(out, &tx.channel, &tx.id, &tx.creator, &tx.nonce)?;
    put_name(out, &tx.chaincode)?;
    put_list(out, tx.namespaces.as_slice())?;
    Ok(())
}

pub(crate) fn put_endorsements(
    out: &mut Vec<u8>,
    endorsements: &[Endorsement<'_>],
) -> Result<(), EncodeFault>
    ensures { Puts result out.old.items out.new.items (listed 1 endorsement_bytes endorsements.now) (AreEndorsements endorsements.now) }
{
    if MAX_ENDORSEMENTS < endorsements.len() {
        return Err(EncodeFault::TooLarge);
    }
    put_len8(out, endorsements.len())?;
    put_fields(out, endorsements)
}

fn put_signed(out: &mut Vec<u8>, tx: &Tx<'_>) -> Result<(), EncodeFault>
    ensures { Puts result out.old.items out.new.items (signed_bytes tx.now) (IsSigned tx.now) }
{
    put_body(out, tx)?;
    put_endorsements(out, tx.endorsements.as_slice())?;
    Ok(())
}

fn put_tx(out: &mut Vec<u8>, tx: &Tx<'_>) -> Result<(), EncodeFault>
    ensures { Puts result out.old.items out.new.items (whole_bytes tx.now) (IsWhole tx.now) }
{
    put_signed(out, tx)?;
    put_bytes16(out, tx.signature.as_slice())?;
    Ok(())
}

// The bytes, unless they are more than a transaction has.
pub(crate) fn within_limit(bytes: Vec<u8>) -> Result<Bytes, EncodeFault>
    ensures ok { IfOk result (λ b. (b ≡ bytes.items) × (length bytes.items ≤ max_tx_bytes)) }
    ensures err { IfErr result (λ e. (e ≡ TooLarge) × (max_tx_bytes < length bytes.items)) }
{
    if MAX_TX_BYTES < bytes.len() {
        return Err(EncodeFault::TooLarge);
    }
    Ok(Bytes::from_vec(bytes))
}

/// The bytes that spell the identity. Linear in them, in time and memory.
pub fn encode_identity(alloc: Global, identity: &Identity<'_>) -> Result<Bytes, EncodeFault>
    ensures spelled { IfOk result (λ bytes. SpellsIdentity bytes identity.now) }
    // An identity that has a spelling gets it.
    ensures encoded { (bytes : List ℕ) → SpellsIdentity bytes identity.now → GivesUnless Memory result (Ok bytes) }
    ensures too_large { result ≡ Err TooLarge → (bytes : List ℕ) → ¬ SpellsIdentity bytes identity.now }
{
    let mut bytes = Vec::new(alloc);
    put_identity(&mut bytes, identity)?;
    Ok(Bytes::from_vec(bytes))
}

/// Writes the identity's bytes at the end. Grows at most once, and an `Err` changes nothing.
pub fn append_identity(out: &mut Vec<u8>, identity: &Identity<'_>) -> Result<(), EncodeFault>
    ensures ok { OnOk result (out.new.items ≡ out.old.items ++ identity_bytes identity.now) }
    ensures err { OnErr result (out.new.items ≡ out.old.items) }
    ensures too_large { result ≡ Err TooLarge → ¬ IsIdentity identity.now }
{
    put_identity(out, identity)
}

/// The bytes of the transaction's body: what an endorser signs, followed by its identity's bytes.
/// Linear in them, in time and memory, also where they are too many.
pub fn encode_body(alloc: Global, tx: &Tx<'_>) -> Result<Bytes, EncodeFault>
    ensures spelled { IfOk result (λ bytes. SpellsBody bytes tx.now) }
    ensures encoded { (bytes : List ℕ) → SpellsBody bytes tx.now → GivesUnless Memory result (Ok bytes) }
    ensures too_large { result ≡ Err TooLarge → (bytes : List ℕ) → ¬ SpellsBody bytes tx.now }
{
    let mut bytes = Vec::new(alloc);
    put_body(&mut bytes, tx)?;
    within_limit(bytes)
}

/// The bytes of the transaction before the creator's signature, which the creator signs. Linear in
/// them, in time and memory, also where they are too many.
pub fn encode_signed(alloc: Global, tx: &Tx<'_>) -> Result<Bytes, EncodeFault>
    ensures spelled { IfOk result (λ bytes. SpellsSigned bytes tx.now) }
    ensures encoded { (bytes : List ℕ) → SpellsSigned bytes tx.now → GivesUnless Memory result (Ok bytes) }
    ensures too_large { result ≡ Err TooLarge → (bytes : List ℕ) → ¬ SpellsSigned bytes tx.now }
{
    let mut bytes = Vec::new(alloc);
    put_signed(&mut bytes, tx)?;
    within_limit(bytes)
}

/// The bytes that spell the transaction. Linear in them, in time and memory, also where they are too
/// many.
pub fn encode_tx(alloc: Global, tx: &Tx<'_>) -> Result<Bytes, EncodeFault>
    ensures spelled { IfOk result (λ bytes. SpellsTx bytes tx.now) }
    // A transaction that has a spelling gets it.
    ensures encoded { (bytes : List ℕ) → SpellsTx bytes tx.now → GivesUnless Memory result (Ok bytes) }
    ensures too_large { result ≡ Err TooLarge → (bytes : List ℕ) → ¬ SpellsTx bytes tx.now }
{
    let mut bytes = Vec::new(alloc);
    put_tx(&mut bytes, tx)?;
    within_limit(bytes)
}
