//! A namespace and a key in it, in the order of states.
ghost use Rattle.std.specs.Prelude.{◌≡◌, IfOk};
ghost use Rattle.std.proofs.Common.{refl, sym, rules};
ghost use Rattle.std.specs.Cmp.{partial_order_from_agreeing_total};
ghost use Rattle.std.specs.Cmp.Rules.{comparing};
ghost use Rattle.std.specs.Ordering.{as_partial_cmp};
ghost use Rattle.rules.specs.State.{is_same_key, key_cmp};
ghost use Rattle.rules.proofs.Keys.{key_cmp_total, key_ties};

use rules::KeptKey;
use std::alloc::{AllocError, Global};
use std::cmp::Ordering;
use std::marker::Model;
use values::{KeyRef, NameRef};

/// A namespace and a key in it, whose bytes may be shared. A contract sees the pair of both.
#[derive(Debug, Drop)]
pub struct ConflictKey {
    kept: KeptKey,
}

impl Model for ConflictKey {
    ghost use Rattle.rules.specs.State.{StateKey};
    ghost use Rattle.rules.specs.Code.{key_code};

    ghost Value = { StateKey };

    ghost coded = { key_code };

    ghost view = { λ k. k.kept };
}

impl ConflictKey {
    /// Copies both into one allocation, and takes a second one to share it.
    pub(crate) fn copied(
        alloc: Global,
        namespace: &NameRef<'_>,
        key: &KeyRef<'_>,
    ) -> Result<ConflictKey, AllocError>
        ensures { IfOk result (λ k. k ≡ (namespace.now, key.now)) }
    {
        Ok(ConflictKey {
            kept: KeptKey::copied(alloc, namespace, key)?,
        })
    }

    /// Another reference to the same bytes. Takes no memory, and fails only for the 2^63rd reference.
    pub(crate) fn share(&self) -> Result<ConflictKey, AllocError>
        ensures { IfOk result (λ k. k ≡ self.now) }
    {
        Ok(ConflictKey {
            kept: self.kept.share()?,
        })
    }

    /// Its namespace, borrowed.
    pub fn namespace(&self) -> NameRef<'_>
        ensures { result ≡ self.now.0 }
    {
        self.kept.namespace()
    }

    /// The key in it, borrowed.
    pub fn key(&self) -> KeyRef<'_>
        ensures { result ≡ self.now.1 }
    {
        self.kept.key()
    }

    fn is_same(&self, other: &ConflictKey) -> bool
        ensures { result ≡ is_same_key self.now other.now }
    {
        self.order(other).is_eq()
    }

    /// By the namespace's bytes, then by the key's.
    fn order(&self, other: &ConflictKey) -> Ordering
        ensures { result ≡ key_cmp self.now other.now }
    {
        let namespaces = self
            .namespace()
            .as_slice()
            .cmp(other.namespace().as_slice());
        if namespaces.is_eq() {
            self.key().as_slice().cmp(other.key().as_slice())
        } else {
            namespaces
        }
    }
}

impl PartialEq for ConflictKey {
    ghost eq = { is_same_key };

    ghost laws = { Prim.search (comparing, rules) };

    fn eq(&self, other: &ConflictKey) -> bool {
        self.is_same(other)
    }
}

impl Eq for ConflictKey {
    ghost laws = { Prim.search (comparing, rules) };
}

impl PartialOrd for ConflictKey {
    ghost partial_cmp = { as_partial_cmp key_cmp };

    ghost laws = { partial_order_from_agreeing_total key_cmp key_cmp_total (λ _ _. refl) (λ a b. sym (key_ties a b)) };

    fn partial_cmp(&self, other: &ConflictKey) -> Option<Ordering> {
        Some(self.order(other))
    }
}

impl Ord for ConflictKey {
    ghost cmp = { key_cmp };

    ghost total = { key_cmp_total };

    ghost matches_partial_cmp = { Prim.search (comparing, rules) };

    ghost matches_eq = { λ a b. sym (key_ties a b) };

    fn cmp(&self, other: &ConflictKey) -> Ordering {
        self.order(other)
    }
}
