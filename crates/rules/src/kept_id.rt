ghost use Rattle.std.specs.Prelude.{◌≡◌, ◌≤◌, ◌+◌, length, IfOk};
ghost use Rattle.rules.specs.KeptEntry.{id_in};

use std::alloc::{AllocError, Global};
use std::marker::Model;
use transaction::{ID_BYTES, TxId};
use values::{Bytes, Shared, found_at};

/// A transaction's id, as a part of bytes that have several owners. A contract sees the id.
#[derive(Debug, Drop)]
pub struct KeptId {
    whole: Shared<Bytes>,
    start: u32,
}

impl Model for KeptId {
    ghost use Rattle.std.specs.Prelude.{ℕ, List};

    ghost Value = { List ℕ };

    ghost use Rattle.std.specs.Prelude.{◌≤◌, ◌+◌, length};
    ghost use Rattle.rules.specs.KeptEntry.{id_in};

    ghost view = { λ k. id_in k.whole k.start };

    ghost invariant = { λ k. k.start + 64 ≤ length k.whole };
}

/// The id that stands in these bytes, from a place on.
pub(crate) fn id_at(whole: &Bytes, start: u32) -> TxId
    requires { start + 64 ≤ length whole.now }
    ensures { result ≡ id_in whole.now start }
{
    let start = start as usize;
    let mut id = [0; ID_BYTES];
    id.copy_from_slice(&whole.as_slice()[start..start + ID_BYTES]);
    id
}

impl KeptId {
    /// The part of shared bytes that begins at a place, where the id stands there; else a copy, which takes memory. Compares them.
    pub fn kept(
        alloc: Global,
        whole: &Shared<Bytes>,
        start: usize,
        id: &TxId,
    ) -> Result<KeptId, AllocError>
        ensures { IfOk result (λ kept. kept ≡ id.now) }
    {
        if let Some((start, _)) = found_at(whole.get().as_slice(), start, id) {
            return Ok(KeptId {
                whole: whole.share()?,
                start,
            });
        }
        Ok(KeptId {
            whole: Shared::new(alloc, Bytes::from_slice(alloc, id)?)?,
            start: 0,
        })
    }

    /// The id once more: its bytes get one more owner. Takes no memory; only the 2^63rd owner is refused.
    pub fn share(&self) -> Result<KeptId, AllocError>
        ensures { IfOk result (λ kept. kept ≡ self.now) }
    {
        Ok(KeptId {
            whole: self.whole.share()?,
            start: self.start,
        })
    }

    /// The bytes in which it stands, and from which place on.
    pub(crate) fn into_place(self) -> (Shared<Bytes>, u32)
        ensures bounds { result.1 + 64 ≤ length result.0 }
        ensures id { id_in result.0 result.1 ≡ self }
    {
        (self.whole, self.start)
    }

    /// A copy of it. Constant time.
    pub fn get(&self) -> TxId
        ensures { result ≡ self.now }
    {
        id_at(self.whole.get(), self.start)
    }
}
