ghost use Rattle.std.specs.Prelude.{◌≡◌, ◌≤◌, ℕ, List, [], Option, IfOk, length};
ghost use Rattle.std.specs.Vec.{vec_capacity};
ghost use Rattle.values.specs.Name.{is_name};
ghost use Rattle.transaction.specs.Combined.{bytes_at, number_at, counted_at, fields_at, listed_at};
ghost use Rattle.transaction.specs.Reading.{Gives, name_at, key_at, bound_at};

use crate::fault::TxFault;
use byteorder::{BigEndian, ByteOrder};
use std::alloc::{AllocError, Global};
use values::{BoundRef, Items, KeyRef, NameRef, Slice, is_bound, is_key, is_name};

pub(crate) fn read_bytes(n: usize, bytes: &[u8]) -> Result<(&[u8], &[u8]), TxFault>
    ensures { Gives (λ x. (x.0.now, x.1.now)) result (bytes_at n bytes.now) }
{
    if bytes.len() < n {
        return Err(TxFault::Form);
    }
    Ok(bytes.split_at(n))
}

pub(crate) fn read_u8(bytes: &[u8]) -> Result<(u8, &[u8]), TxFault>
    ensures { Gives (λ x. (x.0, x.1.now)) result (number_at 1 bytes.now) }
{
    if bytes.is_empty() {
        return Err(TxFault::Form);
    }
    Ok((bytes[0], &bytes[1..]))
}

pub(crate) fn read_u16(bytes: &[u8]) -> Result<(u16, &[u8]), TxFault>
    ensures { Gives (λ x. (x.0, x.1.now)) result (number_at 2 bytes.now) }
{
    if bytes.len() < 2 {
        return Err(TxFault::Form);
    }
    Ok((BigEndian::read_u16(bytes), &bytes[2..]))
}

pub(crate) fn read_u32(bytes: &[u8]) -> Result<(u32, &[u8]), TxFault>
    ensures { Gives (λ x. (x.0, x.1.now)) result (number_at 4 bytes.now) }
{
    if bytes.len() < 4 {
        return Err(TxFault::Form);
    }
    Ok((BigEndian::read_u32(bytes), &bytes[4..]))
}

pub(crate) fn read_u64(bytes: &[u8]) -> Result<(u64, &[u8]), TxFault>
    ensures { Gives (λ x. (x.0, x.1.now)) result (number_at 8 bytes.now) }
{
    if bytes.len() < 8 {
        return Err(TxFault::Form);
    }
    Ok((BigEndian::read_u64(bytes), &bytes[8..]))
}

fn read_counted8(bytes: &[u8]) -> Result<(&[u8], &[u8]), TxFault>
    ensures { Gives (λ x. (x.0.now, x.1.now)) result (counted_at 1 bytes.now) }
{
    let (len, rest) = read_u8(bytes)?;
    read_bytes(len as usize, rest)
}

fn read_counted16(bytes: &[u8]) -> Result<(&[u8], &[u8]), TxFault>
    ensures { Gives (λ x. (x.0.now, x.1.now)) result (counted_at 2 bytes.now) }
{
    let (len, rest) = read_u16(bytes)?;
    read_bytes(len as usize, rest)
}

fn read_counted32(bytes: &[u8]) -> Result<(&[u8], &[u8]), TxFault>
    ensures { Gives (λ x. (x.0.now, x.1.now)) result (counted_at 4 bytes.now) }
{
    let (len, rest) = read_u32(bytes)?;
    read_bytes(len as usize, rest)
}

pub(crate) fn read_bytes8(bytes: &[u8]) -> Result<(Slice<'_>, &[u8]), TxFault>
    ensures { Gives (λ x. (x.0, x.1.now)) result (counted_at 1 bytes.now) }
{
    let (field, rest) = read_counted8(bytes)?;
    Ok((Slice::new(field), rest))
}

pub(crate) fn read_bytes16(bytes: &[u8]) -> Result<(Slice<'_>, &[u8]), TxFault>
    ensures { Gives (λ x. (x.0, x.1.now)) result (counted_at 2 bytes.now) }
{
    let (field, rest) = read_counted16(bytes)?;
    Ok((Slice::new(field), rest))
}

pub(crate) fn read_bytes32(bytes: &[u8]) -> Result<(Slice<'_>, &[u8]), TxFault>
    ensures { Gives (λ x. (x.0, x.1.now)) result (counted_at 4 bytes.now) }
{
    let (field, rest) = read_counted32(bytes)?;
    Ok((Slice::new(field), rest))
}

#[tactic(auto, unfolding(crate::specs::Reading::name_at))]
pub(crate) fn read_name(bytes: &[u8]) -> Result<(NameRef<'_>, &[u8]), TxFault>
    ensures { Gives (λ x. (x.0, x.1.now)) result (name_at bytes.now) }
{
    let (field, rest) = read_counted8(bytes)?;
    if !is_name(field) {
        return Err(TxFault::Form);
    }
    Ok((NameRef::new(field), rest))
}

#[tactic(auto, unfolding(crate::specs::Reading::key_at))]
pub(crate) fn read_key(bytes: &[u8]) -> Result<(KeyRef<'_>, &[u8]), TxFault>
    ensures { Gives (λ x. (x.0, x.1.now)) result (key_at bytes.now) }
{
    let (field, rest) = read_counted16(bytes)?;
    if !is_key(field) {
        return Err(TxFault::Form);
    }
    Ok((KeyRef::new(field), rest))
}

#[tactic(auto, unfolding(crate::specs::Reading::bound_at))]
pub(crate) fn read_bound(bytes: &[u8]) -> Result<(BoundRef<'_>, &[u8]), TxFault>
    ensures { Gives (λ x. (x.0, x.1.now)) result (bound_at bytes.now) }
{
    let (field, rest) = read_counted16(bytes)?;
    if !is_bound(field) {
        return Err(TxFault::Form);
    }
    Ok((BoundRef::new(field), rest))
}

/// A field that lists are made of.
pub(crate) trait Field<'a>: Drop {
    /// The bytes of the shortest.
    const LEAST_BYTES: usize;

    ghost read_at: { List ℕ → Option (Self × List ℕ) };

    fn read(alloc: Global, bytes: &'a [u8]) -> Result<(Self, &'a [u8]), TxFault>
        ensures { Gives (λ x. (x.0, x.1.now)) result (read_at bytes.now) };
}

// No items yet, and room for so many, but for no more than the bytes can spell: a count isn't believed.
fn room_for<'a, T: Field<'a>>(alloc: Global, count: u16, bytes: &[u8]) -> Result<Vec<T>, AllocError>
    ensures empty { IfOk result (λ room. room.items ≡ []) }
    ensures room { IfOk result (λ room. vec_capacity room ≤ length bytes.now) }
{
    let most = bytes.len() / T::LEAST_BYTES.max(1);
    Vec::with_capacity(alloc, most.min(count as usize))
}

pub(crate) fn read_fields<'a, T: Field<'a>>(
    alloc: Global,
    count: u16,
    bytes: &'a [u8],
) -> Result<(Items<T>, &'a [u8]), TxFault>
    ensures { Gives (λ x. (x.0, x.1.now)) result (fields_at T.read_at count bytes.now) }
{
    let mut items = Items::from_vec(room_for(alloc, count, bytes)?);
    let mut rest = bytes;
    for _ in 0..count {
        let (item, after) = T::read(alloc, rest)?;
        items.push(item)?;
        rest = after;
    }
    Ok((items, rest))
}

pub(crate) fn read_list<'a, T: Field<'a>>(
    alloc: Global,
    bytes: &'a [u8],
) -> Result<(Items<T>, &'a [u8]), TxFault>
    ensures { Gives (λ x. (x.0, x.1.now)) result (listed_at 2 T.read_at bytes.now) }
{
    let (count, rest) = read_u16(bytes)?;
    read_fields(alloc, count, rest)
}
