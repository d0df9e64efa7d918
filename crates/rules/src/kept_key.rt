ghost use Rattle.std.specs.Prelude.{◌≡◌, IfOk, IfSome};

use std::alloc::{AllocError, Global};
use std::marker::Model;
use values::{Bytes, KeyRef, NameRef, Shared, found_at};

/// A namespace and a key in it, as parts of bytes that have several owners. A contract sees the pair of both.
#[derive(Debug, Drop)]
pub struct KeptKey {
    whole: Shared<Bytes>,
    namespace_start: u32,
    namespace_end: u32,
    key_start: u32,
    key_end: u32,
}

impl Model for KeptKey {
    ghost use Rattle.rules.specs.State.{StateKey};
    ghost use Rattle.rules.specs.Code.{key_code};

    ghost Value = { StateKey };

    ghost coded = { key_code };

    ghost use Rattle.std.specs.Prelude.{◌≤◌, IsTrue, length};
    ghost use Rattle.std.specs.List.{between};
    ghost use Rattle.values.specs.Name.{is_name};
    ghost use Rattle.values.specs.Key.{is_key};

    ghost view = { λ k. (between k.namespace_start k.namespace_end k.whole, between k.key_start k.key_end k.whole) };

    ghost invariant = { λ k. (k.namespace_start ≤ k.namespace_end) × (k.namespace_end ≤ length k.whole)
        × (k.key_start ≤ k.key_end) × (k.key_end ≤ length k.whole)
        × IsTrue (is_name (between k.namespace_start k.namespace_end k.whole)) × IsTrue (is_key (between k.key_start k.key_end k.whole)) };
}

impl KeptKey {
    /// The parts of shared bytes that begin at these two places, where the namespace and the key stand there; else `None`.
    /// Compares them, and takes no memory.
    pub fn found(
        whole: &Shared<Bytes>,
        namespace_start: usize,
        key_start: usize,
        namespace: &NameRef<'_>,
        key: &KeyRef<'_>,
    ) -> Result<Option<KeptKey>, AllocError>
        ensures { IfOk result (λ found. IfSome found (λ k. k ≡ (namespace.now, key.now))) }
    {
        let all = whole.get().as_slice();
        let Some((namespace_start, namespace_end)) = found_at(
            all,
            namespace_start,
            namespace.as_slice(),
        ) else {
            return Ok(None);
        };
        let Some((key_start, key_end)) = found_at(all, key_start, key.as_slice()) else {
            return Ok(None);
        };
        Ok(Some(KeptKey {
            whole: whole.share()?,
            namespace_start,
            namespace_end,
            key_start,
            key_end,
        }))
    }

    /// Of bytes of its own: copies both into one allocation, and takes a second one to share it.
    pub fn copied(
        alloc: Global,
        namespace: &NameRef<'_>,
        key: &KeyRef<'_>,
    ) -> Result<KeptKey, AllocError>
        ensures { IfOk result (λ k. k ≡ (namespace.now, key.now)) }
    {
        let namespace = namespace.as_slice();
        let key = key.as_slice();
        let mut bytes = Vec::with_capacity(alloc, namespace.len() + key.len())?;
        bytes.extend_from_slice(namespace)?;
        bytes.extend_from_slice(key)?;
        Ok(KeptKey {
            whole: Shared::new(alloc, Bytes::from_vec(bytes))?,
            namespace_start: 0,
            namespace_end: namespace.len() as u32,
            key_start: namespace.len() as u32,
            key_end: (namespace.len() + key.len()) as u32,
        })
    }

    /// The key once more: its bytes get one more owner. Takes no memory; only the 2^63rd owner is refused.
    pub fn share(&self) -> Result<KeptKey, AllocError>
        ensures { IfOk result (λ k. k ≡ self.now) }
    {
        Ok(KeptKey {
            whole: self.whole.share()?,
            namespace_start: self.namespace_start,
            namespace_end: self.namespace_end,
            key_start: self.key_start,
            key_end: self.key_end,
        })
    }

    /// The namespace, lent.
    pub fn namespace(&self) -> NameRef<'_>
        ensures { result ≡ self.now.0 }
    {
        let all = self.whole.get().as_slice();
        NameRef::new(&all[self.namespace_start as usize..self.namespace_end as usize])
    }

    /// The key in its namespace, lent.
    pub fn key(&self) -> KeyRef<'_>
        ensures { result ≡ self.now.1 }
    {
        let all = self.whole.get().as_slice();
        KeyRef::new(&all[self.key_start as usize..self.key_end as usize])
    }
}
