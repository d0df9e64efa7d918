//! Names and keys, and the rows and history entries at them.

use rules::{KeptEntry, KeptId, KeptKey, Row};
use std::alloc::Global;
use test_support::Failed;
use transaction::{TxId, Version};
use values::{BoundRef, Bytes, Hash, KeyRef, NameRef, Part, Shared, is_bound, is_key, is_name};

/// The name. The error is `Missing` where the bytes are none.
pub fn name(bytes: &[u8]) -> Result<NameRef<'_>, Failed> {
    if !is_name(bytes) {
        return Err(Failed::Missing("a name"));
    }
    Ok(NameRef::new(bytes))
}

/// The key. The error is `Missing` where the bytes are none.
pub fn key(bytes: &[u8]) -> Result<KeyRef<'_>, Failed> {
    if !is_key(bytes) {
        return Err(Failed::Missing("a key"));
    }
    Ok(KeyRef::new(bytes))
}

/// The bound. The error is `Missing` where the bytes are none.
pub fn bound(bytes: &[u8]) -> Result<BoundRef<'_>, Failed> {
    if !is_bound(bytes) {
        return Err(Failed::Missing("a bound"));
    }
    Ok(BoundRef::new(bytes))
}

/// The key of a namespace, as worlds keep it.
pub fn kept_key(alloc: Global, namespace: &[u8], at: &[u8]) -> Result<KeptKey, Failed> {
    Ok(KeptKey::copied(alloc, &name(namespace)?, &key(at)?)?)
}

/// The version of what is done at a place of block 0.
pub fn version_of(place: u32) -> Version {
    Version {
        block: 0,
        tx: place,
    }
}

/// The commit hash of a block with this header hash.
pub fn commit_hash_of(mut hash: Hash) -> Hash {
    hash[31] = 1;
    hash
}

/// A row of block 0, without a policy.
pub fn row(alloc: Global, value: &[u8]) -> Result<Row, Failed> {
    Ok(Row {
        value: Part::copied(alloc, value)?,
        version: version_of(0),
        policy: None,
    })
}

fn digit(number: u32) -> u8 {
    b"0123456789"[(number % 10) as usize]
}

/// `k` with three digits.
pub fn numbered(number: u32) -> [u8; 4] {
    [b'k', digit(number / 100), digit(number / 10), digit(number)]
}

/// An id that stands in no other bytes.
pub fn kept_id(alloc: Global, id: TxId) -> Result<KeptId, Failed> {
    let no_bytes = Shared::new(alloc, Bytes::from_vec(Vec::new(alloc)))?;
    Ok(KeptId::kept(alloc, &no_bytes, 0, &id)?)
}

/// A delete at a place of block 0.
pub fn entry(alloc: Global, namespace: &[u8], at: &[u8], place: u32) -> Result<KeptEntry, Failed> {
    let key = kept_key(alloc, namespace, at)?;
    let id = kept_id(alloc, [0; 64])?;
    Ok(KeptEntry::deleted(alloc, key, version_of(place), id)?)
}
