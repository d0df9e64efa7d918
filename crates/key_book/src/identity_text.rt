ghost use Rattle.std.specs.Prelude.{◌≡◌, ◌==◌, ◌<◌, length, position, IfOk, IfSome, option_map};
ghost use Rattle.key_book.specs.BookText as spec;

use std::alloc::{AllocError, Global};
use text_lines::read_word;
use transaction::{OwnedIdentity, Role};
use values::{Bytes, Name, is_name};

pub(crate) const MAX_LABEL: usize = 255;

fn colon_in(text: &[u8]) -> Option<usize>
    ensures place { result ≡ position (λ b. b == 58) text.now }
    ensures bound { IfSome result (λ i. i < length text.now) }
{
    text.iter().position(|byte| *byte == b':')
}

// The bytes before the first `:`, and those behind it.
fn around_colon(text: &[u8]) -> Option<(&[u8], &[u8])>
    ensures { option_map (λ x. (x.0.now, x.1.now)) result ≡ spec.around_colon text.now }
{
    let colon = colon_in(text)?;
    Some((&text[..colon], &text[colon + 1..]))
}

fn role_of(word: &[u8]) -> Option<Role>
    ensures { result ≡ spec.role_of word.now }
{
    if word == b"admin".as_slice() {
        Some(Role::Admin)
    } else if word == b"client".as_slice() {
        Some(Role::Client)
    } else if word == b"peer".as_slice() {
        Some(Role::Peer)
    } else if word == b"orderer".as_slice() {
        Some(Role::Orderer)
    } else {
        None
    }
}

fn read_label(alloc: Global, word: &[u8]) -> Result<Option<Bytes>, AllocError>
    ensures { IfOk result (λ label. label ≡ spec.label_of word.now) }
{
    let label = read_word(alloc, word)?;
    Ok(label.filter(|label| label.len() <= MAX_LABEL))
}

fn read_member(
    alloc: Global,
    org: &[u8],
    role: &[u8],
    label: &[u8],
) -> Result<Option<OwnedIdentity>, AllocError>
    ensures { IfOk result (λ identity. identity ≡ spec.member_of org.now role.now label.now) }
{
    if !is_name(org) {
        return Ok(None);
    }
    let Some(role) = role_of(role) else {
        return Ok(None);
    };
    let Some(label) = read_label(alloc, label)? else {
        return Ok(None);
    };
    let org = Name::from_slice(alloc, org)?;
    Ok(Some(OwnedIdentity::new(org, role, label)))
}

/// The identity that a text `ORG:ROLE:LABEL` names, or `None` where it has another form. ORG is a
/// name, ROLE one of `admin`, `client`, `peer` and `orderer`, and LABEL, which may have `:` itself,
/// a word that spells at most 255 bytes. Linear in the text, in time and memory.
pub fn read_identity(alloc: Global, text: &[u8]) -> Result<Option<OwnedIdentity>, AllocError>
    ensures { IfOk result (λ identity. identity ≡ spec.identity_of text.now) }
{
    let Some((org, rest)) = around_colon(text) else {
        return Ok(None);
    };
    let Some((role, label)) = around_colon(rest) else {
        return Ok(None);
    };
    read_member(alloc, org, role, label)
}
