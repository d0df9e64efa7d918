ghost use Rattle.std.specs.Prelude.{◌≡◌, ◌≤◌, length, IfOk, IfSome};
ghost use Rattle.std.specs.List.{between};

use crate::bytes::Bytes;
use crate::shared::Shared;
use std::alloc::{AllocError, Global};
use std::marker::Model;

/// Where the bytes begin and end in all of them, if they stand at this place; else `None`. Compares them. Places have
/// 32 bits: what ends behind 2^32 - 1 isn't found.
pub fn found_at(all: &[u8], start: usize, bytes: &[u8]) -> Option<(u32, u32)>
    ensures bounds { IfSome result (λ p. (p.0 ≤ p.1) × (p.1 ≤ length all.now)) }
    ensures bytes { IfSome result (λ p. between p.0 p.1 all.now ≡ bytes.now) }
{
    let end = start.saturating_add(bytes.len());
    if end > all.len() || &all[start..end] != bytes {
        return None;
    }
    match (u32::try_from(start), u32::try_from(end)) {
        (Ok(start), Ok(end)) => Some((start, end)),
        _ => None,
    }
}

/// A part of bytes that have several owners, in any threads, and never change. A contract sees the bytes of the part.
///
/// It is one more owner of the whole, which stays as long as a part of it does.
#[derive(Debug, Drop)]
pub struct Part {
    whole: Shared<Bytes>,
    start: u32,
    end: u32,
}

impl Model for Part {
    ghost use Rattle.std.specs.Prelude.{◌≤◌, ℕ, List, length};
    ghost use Rattle.std.specs.List.{between};

    ghost Value = { List ℕ };

    ghost view = { λ p. between p.start p.end p.whole };

    ghost invariant = { λ p. (p.start ≤ p.end) × (p.end ≤ length p.whole) };
}

impl Part {
    /// The part of shared bytes that begins at this place, if these bytes stand there; else `None`. Compares them,
    /// takes no memory, and is refused only to the 2^63rd owner.
    pub fn found(
        whole: &Shared<Bytes>,
        start: usize,
        bytes: &[u8],
    ) -> Result<Option<Part>, AllocError>
        ensures { IfOk result (λ found. IfSome found (λ part. part ≡ bytes.now)) }
    {
        let Some((start, end)) = found_at(whole.get().as_slice(), start, bytes) else {
            return Ok(None);
        };
        Ok(Some(Part {
            whole: whole.share()?,
            start,
            end,
        }))
    }

    /// A part that is all of its own bytes, a copy of these: linear in their number, in time and memory. Refused for
    /// 2^32 bytes and more.
    pub fn copied(alloc: Global, bytes: &[u8]) -> Result<Part, AllocError>
        ensures { IfOk result (λ part. part ≡ bytes.now) }
    {
        let Ok(end) = u32::try_from(bytes.len()) else {
            return Err(AllocError);
        };
        Ok(Part {
            whole: Shared::new(alloc, Bytes::from_slice(alloc, bytes)?)?,
            start: 0,
            end,
        })
    }

    /// One more owner of this part. Takes no memory, and is refused only to the 2^63rd owner.
    pub fn share(&self) -> Result<Part, AllocError>
        ensures { IfOk result (λ part. part ≡ self.now) }
    {
        Ok(Part {
            whole: self.whole.share()?,
            start: self.start,
            end: self.end,
        })
    }

    /// The bytes of the part.
    pub fn as_slice(&self) -> &[u8]
        ensures { result.now ≡ self.now }
    {
        &self.whole.get().as_slice()[self.start as usize..self.end as usize]
    }
}
