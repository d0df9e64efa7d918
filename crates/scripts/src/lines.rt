//! The forms of lines.
ghost use Rattle.std.specs.Prelude.{◌≡◌, IfOk, option_map};
ghost use Rattle.scripts.specs.Says as spec;

use crate::draft::Content;
use crate::keyed::{OwnedKeyVersion, OwnedPolicyWrite, OwnedRead, OwnedWrite};
use crate::namespace::OwnedRange;
use crate::namespaces::Namespaces;
use crate::parts::{
    MAX_NONCE, MAX_VALUE, read_bound, read_bytes, read_key, read_name, read_policy_text, read_raw,
    read_version,
};
use crate::saying::{Entry, Saying};
use key_book::read_identity;
use std::alloc::{AllocError, Global};
use text_lines::first_part;
use transaction::{BlockVersion, Version};

fn read_version_or_absent(text: &[u8]) -> Option<Option<Version>>
    ensures { result ≡ spec.read_version_of text.now }
{
    if text == b"absent".as_slice() {
        Some(None)
    } else {
        Some(Some(read_version(text)?))
    }
}

fn read_read(alloc: Global, text: &[u8]) -> Result<Option<Entry>, AllocError>
    ensures { IfOk result (λ entry. entry ≡ option_map Entry.Read (spec.read_of text.now)) }
{
    let (key, version) = first_part(text);
    let Some(key) = read_key(alloc, key)? else {
        return Ok(None);
    };
    let Some(version) = read_version_or_absent(version) else {
        return Ok(None);
    };
    Ok(Some(Entry::Read(OwnedRead::new(key, version))))
}

fn read_exhausted(part: &[u8]) -> Option<bool>
    ensures { result ≡ spec.exhausted_of part.now }
{
    if part == b"all".as_slice() {
        Some(true)
    } else if part == b"part".as_slice() {
        Some(false)
    } else {
        None
    }
}

fn read_range(alloc: Global, text: &[u8]) -> Result<Option<Entry>, AllocError>
    ensures { IfOk result (λ entry. entry ≡ option_map Entry.Range (spec.range_of text.now)) }
{
    let (start, rest) = first_part(text);
    let (end, exhausted) = first_part(rest);
    let Some(start) = read_bound(alloc, start)? else {
        return Ok(None);
    };
    let Some(end) = read_bound(alloc, end)? else {
        return Ok(None);
    };
    let Some(exhausted) = read_exhausted(exhausted) else {
        return Ok(None);
    };
    Ok(Some(Entry::Range(OwnedRange::new(alloc, start, end, exhausted))))
}

fn read_result(alloc: Global, text: &[u8]) -> Result<Option<Entry>, AllocError>
    ensures { IfOk result (λ entry. entry ≡ option_map Entry.Found (spec.result_of text.now)) }
{
    let (key, version) = first_part(text);
    let Some(key) = read_key(alloc, key)? else {
        return Ok(None);
    };
    let Some(version) = read_version(version) else {
        return Ok(None);
    };
    Ok(Some(Entry::Found(OwnedKeyVersion::new(key, version))))
}

fn read_write(alloc: Global, text: &[u8]) -> Result<Option<Entry>, AllocError>
    ensures { IfOk result (λ entry. entry ≡ option_map Entry.Write (spec.write_of text.now)) }
{
    let (key, value) = first_part(text);
    let Some(key) = read_key(alloc, key)? else {
        return Ok(None);
    };
    let Some(value) = read_bytes(alloc, MAX_VALUE, value)? else {
        return Ok(None);
    };
    Ok(Some(Entry::Write(OwnedWrite::new(key, Some(value)))))
}

fn read_delete(alloc: Global, text: &[u8]) -> Result<Option<Entry>, AllocError>
    ensures { IfOk result (λ entry. entry ≡ option_map Entry.Write (spec.delete_of text.now)) }
{
    let Some(key) = read_key(alloc, text)? else {
        return Ok(None);
    };
    Ok(Some(Entry::Write(OwnedWrite::new(key, None))))
}

fn read_policy(alloc: Global, text: &[u8]) -> Result<Option<Entry>, AllocError>
    ensures { IfOk result (λ entry. entry ≡ option_map Entry.Policy (spec.policy_of text.now)) }
{
    let (key, policy) = first_part(text);
    let Some(key) = read_key(alloc, key)? else {
        return Ok(None);
    };
    let Some(policy) = read_policy_text(alloc, policy)? else {
        return Ok(None);
    };
    Ok(Some(Entry::Policy(OwnedPolicyWrite::new(key, Some(policy)))))
}

fn read_no_policy(alloc: Global, text: &[u8]) -> Result<Option<Entry>, AllocError>
    ensures { IfOk result (λ entry. entry ≡ option_map Entry.Policy (spec.no_policy_of text.now)) }
{
    let Some(key) = read_key(alloc, text)? else {
        return Ok(None);
    };
    Ok(Some(Entry::Policy(OwnedPolicyWrite::new(key, None))))
}

fn read_entry(alloc: Global, word: &[u8], rest: &[u8]) -> Result<Option<Entry>, AllocError>
    ensures { IfOk result (λ entry. entry ≡ spec.entry_of word.now rest.now) }
{
    if word == b"read".as_slice() {
        read_read(alloc, rest)
    } else if word == b"range".as_slice() {
        read_range(alloc, rest)
    } else if word == b"result".as_slice() {
        read_result(alloc, rest)
    } else if word == b"write".as_slice() {
        read_write(alloc, rest)
    } else if word == b"delete".as_slice() {
        read_delete(alloc, rest)
    } else if word == b"policy".as_slice() {
        read_policy(alloc, rest)
    } else if word == b"nopolicy".as_slice() {
        read_no_policy(alloc, rest)
    } else {
        Ok(None)
    }
}

// What a transaction or an update begins with, where each part has its form.
fn read_begins(
    alloc: Global,
    creator: &[u8],
    nonce: &[u8],
    name: &[u8],
    content: Content,
) -> Result<Option<Saying>, AllocError>
    ensures { IfOk result (λ saying. saying ≡ spec.begins_of creator.now nonce.now name.now content) }
{
    let Some(creator) = read_identity(alloc, creator)? else {
        return Ok(None);
    };
    let Some(nonce) = read_bytes(alloc, MAX_NONCE, nonce)? else {
        return Ok(None);
    };
    let Some(chaincode) = read_name(alloc, name)? else {
        return Ok(None);
    };
    Ok(Some(Saying::Begins(creator, nonce, chaincode, content)))
}

fn read_tx(alloc: Global, text: &[u8]) -> Result<Option<Saying>, AllocError>
    ensures { IfOk result (λ saying. saying ≡ spec.tx_of text.now) }
{
    let (creator, rest) = first_part(text);
    let (nonce, name) = first_part(rest);
    let content = Content::Tx(Namespaces::new(alloc));
    read_begins(alloc, creator, nonce, name, content)
}

fn read_update(alloc: Global, text: &[u8]) -> Result<Option<Saying>, AllocError>
    ensures { IfOk result (λ saying. saying ≡ spec.update_of text.now) }
{
    let (creator, rest) = first_part(text);
    let (nonce, rest) = first_part(rest);
    let (name, policy) = first_part(rest);
    let Some(policy) = read_policy_text(alloc, policy)? else {
        return Ok(None);
    };
    read_begins(alloc, creator, nonce, name, Content::Update(policy))
}

fn has_updates(version: BlockVersion) -> bool
    ensures { result ≡ spec.has_updates version }
{
    match version {
        BlockVersion::V1 => false,
        BlockVersion::V2 => true,
    }
}

pub(crate) fn is_update(version: BlockVersion, word: &[u8]) -> bool
    ensures { result ≡ spec.is_update version word.now }
{
    has_updates(version) && word == b"update".as_slice()
}

// What the line says, or none where it has no form of the table, or a part over its limit.
pub(crate) fn read_line(
    alloc: Global,
    version: BlockVersion,
    line: &[u8],
) -> Result<Option<Saying>, AllocError>
    ensures { IfOk result (λ saying. saying ≡ spec.says version line.now) }
{
    let (word, rest) = first_part(line);
    if word == b"tx".as_slice() {
        read_tx(alloc, rest)
    } else if is_update(version, word) {
        read_update(alloc, rest)
    } else if word == b"raw".as_slice() {
        Ok(read_raw(alloc, rest)?.map(Saying::Raw))
    } else if word == b"ns".as_slice() {
        Ok(read_name(alloc, rest)?.map(Saying::Namespace))
    } else if word == b"endorse".as_slice() {
        Ok(read_identity(alloc, rest)?.map(Saying::Endorse))
    } else {
        Ok(read_entry(alloc, word, rest)?.map(Saying::Adds))
    }
}
