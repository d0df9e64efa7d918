ghost use Rattle.std.specs.Prelude.{◌≡◌, false, IsTrue, IfSome, IfNone};
ghost use Rattle.values.specs.Name.{is_name};
ghost use Rattle.rules.specs.State.{StateKey, key_cmp};
ghost use Rattle.state_keys.specs.Head.{head_of, is_whole};

use crate::head::{Head, head_of, order_by_heads};
use std::cmp::Ordering;
use std::marker::Model;
use values::NameRef;

/// A key that is looked for, or a bound, lent, with its head. A contract sees the namespace with the bytes.
#[derive(Drop)]
pub struct Wanted<'a> {
    head: Head,
    namespace: &'a [u8],
    key: &'a [u8],
}

impl<'a> Model for Wanted<'a> {
    ghost use Rattle.rules.specs.State.{StateKey};

    ghost Value = { StateKey };

    ghost use Rattle.std.specs.Prelude.{◌≡◌, IsTrue};
    ghost use Rattle.values.specs.Name.{is_name};
    ghost use Rattle.state_keys.specs.Head.{head_of};

    ghost view = { λ w. (w.namespace.now, w.key.now) };

    ghost invariant = { λ w. (w.head ≡ head_of (w.namespace.now, w.key.now)) × IsTrue (is_name w.namespace.now) };
}

impl<'a> Wanted<'a> {
    /// Any bytes may be looked for as a key: a range begins at a bound.
    pub fn new(namespace: &NameRef<'a>, key: &'a [u8]) -> Wanted<'a>
        ensures { result ≡ (namespace.now, key.now) }
    {
        let head = head_of(namespace.as_slice(), key);
        Wanted::with_head(head, namespace, key)
    }

    /// A key to look for, whose head the caller has already.
    pub fn with_head(head: Head, namespace: &NameRef<'a>, key: &'a [u8]) -> Wanted<'a>
        requires { head ≡ head_of (namespace.now, key.now) }
        ensures { result ≡ (namespace.now, key.now) }
    {
        Wanted {
            head,
            namespace: namespace.as_slice(),
            key,
        }
    }

    /// How a key with this head stands to this one, or `None` where the heads don't tell.
    pub fn order_by_head(&self, head: &Head) -> Option<Ordering>
        ensures told { (k : StateKey) → IsTrue (is_name k.0) → head.now ≡ head_of k → IfSome result (λ order. order ≡ key_cmp k self.now) }
        ensures same { IfNone result ((head.now ≡ head_of self.now) × (is_whole head.now ≡ false)) }
    {
        order_by_heads(head, &self.head)
    }

    /// How a key stands to this one. Linear in their bytes.
    pub fn order_of(&self, namespace: &[u8], key: &[u8]) -> Ordering
        ensures { result ≡ key_cmp (namespace.now, key.now) self.now }
    {
        match namespace.cmp(&self.namespace) {
            Ordering::Equal => key.cmp(&self.key),
            other => other,
        }
    }
}
