//! The parts of a line behind its first word.
ghost use Rattle.std.specs.Prelude.{◌≡◌, IfOk, IfSome, IsTrue};
ghost use Rattle.values.specs.Key.{is_bound};
ghost use Rattle.scripts.specs.Limits.{at_most};
ghost use Rattle.scripts.specs.Says as spec;

use crate::numbers::{read_u32, read_u64};
use hex::FromHexError;
use std::alloc::{AllocError, Global};
use text_lines::{first_part, read_word};
use transaction::{MAX_TX_BYTES, Version};
use values::{Bytes, Key, Name, is_bound, is_key, is_name};

/// The most bytes of a nonce.
pub(crate) const MAX_NONCE: usize = 255;

/// The most bytes of a value.
pub(crate) const MAX_VALUE: usize = 4_294_967_295;

/// The most bytes of a policy's text.
pub(crate) const MAX_POLICY: usize = 65_535;

fn at_most(most: usize, bytes: Bytes) -> Option<Bytes>
    ensures { result ≡ at_most most bytes }
{
    if bytes.len() <= most {
        Some(bytes)
    } else {
        None
    }
}

pub(crate) fn read_name(alloc: Global, part: &[u8]) -> Result<Option<Name>, AllocError>
    ensures { IfOk result (λ name. name ≡ spec.name_of part.now) }
{
    if !is_name(part) {
        return Ok(None);
    }
    Ok(Some(Name::from_slice(alloc, part)?))
}

pub(crate) fn read_key(alloc: Global, part: &[u8]) -> Result<Option<Key>, AllocError>
    ensures { IfOk result (λ key. key ≡ spec.key_of part.now) }
{
    let Some(bytes) = read_word(alloc, part)? else {
        return Ok(None);
    };
    if !is_key(bytes.as_slice()) {
        return Ok(None);
    }
    Ok(Some(Key::from_slice(alloc, bytes.as_slice())?))
}

// A word that spells at most so many bytes.
pub(crate) fn read_bytes(
    alloc: Global,
    most: usize,
    part: &[u8],
) -> Result<Option<Bytes>, AllocError>
    ensures { IfOk result (λ bytes. bytes ≡ spec.word_of most part.now) }
{
    let Some(bytes) = read_word(alloc, part)? else {
        return Ok(None);
    };
    Ok(at_most(most, bytes))
}

pub(crate) fn read_bound(alloc: Global, part: &[u8]) -> Result<Option<Bytes>, AllocError>
    ensures value { IfOk result (λ bound. bound ≡ spec.bound_of part.now) }
    ensures bound { IfOk result (λ bound. IfSome bound (λ bytes. IsTrue (is_bound bytes))) }
{
    let Some(bytes) = read_word(alloc, part)? else {
        return Ok(None);
    };
    if !is_bound(bytes.as_slice()) {
        return Ok(None);
    }
    Ok(Some(bytes))
}

pub(crate) fn read_version(text: &[u8]) -> Option<Version>
    ensures { result ≡ spec.version_of text.now }
{
    let (block, tx) = first_part(text);
    let block = read_u64(block)?;
    let tx = read_u32(tx)?;
    Some(Version { block, tx })
}

pub(crate) fn read_raw(alloc: Global, digits: &[u8]) -> Result<Option<Bytes>, AllocError>
    ensures { IfOk result (λ bytes. bytes ≡ spec.raw_of digits.now) }
{
    match hex::decode(alloc, digits) {
        Ok(bytes) => Ok(at_most(MAX_TX_BYTES, Bytes::from_vec(bytes))),
        Err(FromHexError::OutOfMemory) => Err(AllocError),
        Err(_) => Ok(None),
    }
}

pub(crate) fn read_policy_text(alloc: Global, rest: &[u8]) -> Result<Option<Bytes>, AllocError>
    ensures { IfOk result (λ text. text ≡ spec.policy_text_of rest.now) }
{
    if rest.is_empty() || rest.len() > MAX_POLICY {
        return Ok(None);
    }
    Ok(Some(Bytes::from_slice(alloc, rest)?))
}
