ghost use Rattle.std.specs.Prelude.{◌≡◌};
ghost use Rattle.std.proofs.Common.{refl, sym, rules};
ghost use Rattle.std.specs.Cmp.{partial_order_from_agreeing_total};
ghost use Rattle.std.specs.Cmp.Rules.{comparing};
ghost use Rattle.std.specs.Ordering.{as_partial_cmp};
ghost use Rattle.rules.specs.State.{is_same_key, key_cmp};
ghost use Rattle.rules.proofs.Keys.{key_cmp_total, key_ties};

use crate::head::{Head, head_of, order_by_heads};
use crate::wanted::Wanted;
use std::cmp::Ordering;
use std::marker::Model;
use values::{KeyRef, NameRef};

/// A namespace, and a key in it, lent. A contract sees the pair of both.
#[derive(Drop)]
pub struct StateKey<'a> {
    head: Head,
    namespace: NameRef<'a>,
    key: KeyRef<'a>,
}

impl<'a> Model for StateKey<'a> {
    ghost use Rattle.rules.specs.State as state;
    ghost use Rattle.rules.specs.Code.{key_code};

    ghost Value = { state.StateKey };

    ghost coded = { key_code };

    ghost use Rattle.std.specs.Prelude.{◌≡◌, IsTrue};
    ghost use Rattle.values.specs.Name.{is_name};
    ghost use Rattle.state_keys.specs.Head.{head_of};

    ghost view = { λ k. (k.namespace, k.key) };

    ghost invariant = { λ k. (k.head ≡ head_of (k.namespace, k.key)) × IsTrue (is_name k.namespace) };
}

impl<'a> StateKey<'a> {
    /// A key of a namespace, with its head. Linear in the first 23 bytes alone.
    pub fn new(namespace: &NameRef<'a>, key: &KeyRef<'a>) -> StateKey<'a>
        ensures { result ≡ (namespace.now, key.now) }
    {
        StateKey {
            head: head_of(namespace.as_slice(), key.as_slice()),
            namespace: namespace.reborrow(),
            key: key.reborrow(),
        }
    }

    /// Its namespace.
    pub fn namespace(&self) -> NameRef<'a>
        ensures { result ≡ self.now.0 }
    {
        self.namespace.reborrow()
    }

    /// Its key in the namespace.
    pub fn key(&self) -> KeyRef<'a>
        ensures { result ≡ self.now.1 }
    {
        self.key.reborrow()
    }

    /// A second loan of the key, for as long as the first.
    pub fn reborrow(&self) -> StateKey<'a>
        ensures { result ≡ self.now }
    {
        StateKey {
            head: self.head,
            namespace: self.namespace.reborrow(),
            key: self.key.reborrow(),
        }
    }

    /// The key, to be looked for.
    pub fn wanted(&self) -> Wanted<'_>
        ensures { result ≡ self.now }
    {
        Wanted::with_head(self.head, &self.namespace, self.key.as_slice())
    }

    /// Whether both are the same key. Linear in their bytes where their heads are the same, and lack some.
    pub fn is_same(&self, other: &StateKey<'_>) -> bool
        ensures { result ≡ is_same_key self.now other.now }
    {
        self.order(other).is_eq()
    }

    /// By the namespace's bytes, then by the key's. Looks at them only where the heads don't tell.
    pub fn order(&self, other: &StateKey<'_>) -> Ordering
        ensures { result ≡ key_cmp self.now other.now }
    {
        match order_by_heads(&self.head, &other.head) {
            Some(order) => order,
            None => other
                .wanted()
                .order_of(self.namespace.as_slice(), self.key.as_slice()),
        }
    }
}

impl<'a> PartialEq for StateKey<'a> {
    ghost eq = { is_same_key };

    ghost laws = { Prim.search (comparing, rules) };

    fn eq(&self, other: &StateKey<'a>) -> bool {
        self.is_same(other)
    }
}

impl<'a> Eq for StateKey<'a> {
    ghost laws = { Prim.search (comparing, rules) };
}

impl<'a> PartialOrd for StateKey<'a> {
    ghost partial_cmp = { as_partial_cmp key_cmp };

    ghost laws = { partial_order_from_agreeing_total key_cmp key_cmp_total (λ _ _. refl) (λ a b. sym (key_ties a b)) };

    fn partial_cmp(&self, other: &StateKey<'a>) -> Option<Ordering> {
        Some(self.order(other))
    }
}

impl<'a> Ord for StateKey<'a> {
    ghost cmp = { key_cmp };

    ghost total = { key_cmp_total };

    ghost matches_partial_cmp = { Prim.search (comparing, rules) };

    ghost matches_eq = { λ a b. sym (key_ties a b) };

    fn cmp(&self, other: &StateKey<'a>) -> Ordering {
        self.order(other)
    }
}
