ghost use Rattle.std.specs.Prelude.{◌≡◌, ◌++◌, IfOk, OnOk};
ghost use Rattle.rules.specs.State.{is_same_key};
ghost use Rattle.rules.specs.Delta.{change_of};
ghost use Rattle.rules.specs.Effect as effect;
ghost use Rattle.plain.specs.Keys.{key_of, keys_of};

use rules::{Change, KeptKey};
use std::alloc::{AllocError, Global};
use transaction::{NsSet, Tx};
use values::{Key, KeyRef, Name, NameRef};

/// A namespace, and a key in it, lent.
#[derive(Drop)]
pub(crate) struct StateKey<'a> {
    pub namespace: NameRef<'a>,
    pub key: KeyRef<'a>,
}

impl<'a> StateKey<'a> {
    /// Of parts that are lent.
    pub fn new(namespace: &NameRef<'a>, key: &KeyRef<'a>) -> StateKey<'a>
        ensures { key_of result ≡ (namespace.now, key.now) }
    {
        StateKey {
            namespace: namespace.reborrow(),
            key: key.reborrow(),
        }
    }

    /// Of owned parts, which it lends.
    pub fn lent(namespace: &'a Name, key: &'a Key) -> StateKey<'a>
        ensures { key_of result ≡ (namespace.now, key.now) }
    {
        StateKey {
            namespace: namespace.lend(),
            key: key.lend(),
        }
    }

    /// Whether both parts are equal, byte by byte.
    pub fn is_same(&self, other: &StateKey<'_>) -> bool
        ensures { result ≡ is_same_key (key_of self.now) (key_of other.now) }
    {
        self.namespace.is_same(&other.namespace) && self.key.is_same(&other.key)
    }

    /// Whether the change is one of this key.
    pub fn is_changed(&self, change: &Change) -> bool
        ensures { result ≡ is_same_key (key_of self.now) (change_of change.now).0 }
    {
        self.namespace.is_same(&change.namespace()) && self.key.is_same(&change.key())
    }

    /// Whether the kept key is this one.
    pub fn is_kept(&self, key: &KeptKey) -> bool
        ensures { result ≡ is_same_key (key_of self.now) key.now }
    {
        self.namespace.is_same(&key.namespace()) && self.key.is_same(&key.key())
    }
}

fn add_value_keys<'a>(keys: &mut Vec<StateKey<'a>>, set: &NsSet<'a>) -> Result<(), AllocError>
    ensures { OnOk result (keys_of keys.new.items ≡ keys_of keys.old.items ++ effect.value_keys_in set.now) }
{
    for write in set.writes.as_slice() {
        keys.push(StateKey::new(&set.name, &write.key))?;
    }
    Ok(())
}

fn add_policy_keys_in<'a>(keys: &mut Vec<StateKey<'a>>, set: &NsSet<'a>) -> Result<(), AllocError>
    ensures { OnOk result (keys_of keys.new.items ≡ keys_of keys.old.items ++ effect.policy_keys_in set.now) }
{
    for write in set.policy_writes.as_slice() {
        keys.push(StateKey::new(&set.name, &write.key))?;
    }
    Ok(())
}

/// Adds the keys whose policy the transaction writes.
pub(crate) fn add_policy_keys<'a>(
    keys: &mut Vec<StateKey<'a>>,
    tx: &Tx<'a>,
) -> Result<(), AllocError>
    ensures { OnOk result (keys_of keys.new.items ≡ keys_of keys.old.items ++ effect.policy_keys tx.now) }
{
    for set in tx.namespaces.as_slice() {
        add_policy_keys_in(keys, set)?;
    }
    Ok(())
}

/// The keys that it writes, by value, delete or policy.
pub(crate) fn written_keys<'a>(alloc: Global, tx: &Tx<'a>) -> Result<Vec<StateKey<'a>>, AllocError>
    ensures { IfOk result (λ keys. keys_of keys.items ≡ effect.written_keys tx.now) }
{
    let mut keys = Vec::new(alloc);
    for set in tx.namespaces.as_slice() {
        add_value_keys(&mut keys, set)?;
        add_policy_keys_in(&mut keys, set)?;
    }
    Ok(keys)
}
