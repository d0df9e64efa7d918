//! What a valid transaction makes of the state.
ghost use Rattle.std.specs.Prelude.{◌≡◌, find, Some, None, IfOk};
ghost use Rattle.std.specs.Option.{option_copied};
ghost use Rattle.std.specs.FinMap.{get};
ghost use Rattle.std.specs.Str.{bytes_eq};
ghost use Rattle.rules.specs.Delta.{change_of, changes_in};
ghost use Rattle.rules.specs.Effect as effect;
ghost use Rattle.plain.specs.Keys.{key_of};
ghost use Rattle.plain.specs.StateNow.{state_now};

use crate::candidate::OpenTx;
use crate::change::change_to;
use crate::state::StateNow;
use crate::state_key::StateKey;
use policy::{Policy, PolicyFault};
use rules::{Change, KeptKey, Row, policy_kept, share_row, with_policy};
use std::alloc::{AllocError, Global};
use transaction::{NsSet, PolicyWrite, Tx, Version, Write};
use values::{KeyRef, NameRef, Part, Shared};

fn set_of<'a>(tx: &'a Tx<'a>, namespace: &NameRef<'_>) -> Option<&'a NsSet<'a>>
    ensures { option_copied result ≡ effect.set_of tx.now namespace.now }
{
    tx.namespaces
        .as_slice()
        .iter()
        .find(|set| namespace.is_same(&set.name))
}

fn write_in<'a>(writes: &'a [Write<'a>], key: &KeyRef<'_>) -> Option<&'a Write<'a>>
    ensures { option_copied result ≡ find (λ w. bytes_eq key.now w.key) writes.now }
{
    writes.iter().find(|write| key.is_same(&write.key))
}

fn write_of<'a>(tx: &'a Tx<'a>, key: &StateKey<'_>) -> Option<&'a Write<'a>>
    ensures { option_copied result ≡ effect.write_of tx.now (key_of key.now) }
{
    match set_of(tx, &key.namespace) {
        None => None,
        Some(set) => write_in(set.writes.as_slice(), &key.key),
    }
}

fn policy_write_in<'a>(
    writes: &'a [PolicyWrite<'a>],
    key: &KeyRef<'_>,
) -> Option<&'a PolicyWrite<'a>>
    ensures { option_copied result ≡ find (λ w. bytes_eq key.now w.key) writes.now }
{
    writes.iter().find(|write| key.is_same(&write.key))
}

fn policy_write_of<'a>(tx: &'a Tx<'a>, key: &StateKey<'_>) -> Option<&'a PolicyWrite<'a>>
    ensures { option_copied result ≡ effect.policy_write_of tx.now (key_of key.now) }
{
    match set_of(tx, &key.namespace) {
        None => None,
        Some(set) => policy_write_in(set.policy_writes.as_slice(), &key.key),
    }
}

fn policy_left(alloc: Global, write: &PolicyWrite<'_>) -> Result<Option<Shared<Policy>>, AllocError>
    ensures { IfOk result (λ policy. policy ≡ effect.policy_left write.now) }
{
    match &write.policy {
        None => Ok(None),
        Some(text) => match Policy::parse_bytes(alloc, text.as_slice()) {
            Ok(policy) => Ok(Some(Shared::new(alloc, policy)?)),
            Err(PolicyFault::Memory) => Err(AllocError),
            Err(_) => Ok(None),
        },
    }
}

fn policy_after(
    alloc: Global,
    write: Option<&PolicyWrite<'_>>,
    row: Option<&Row>,
) -> Result<Option<Shared<Policy>>, AllocError>
    ensures { IfOk result (λ policy. policy ≡ effect.policy_after (option_copied write.entry) (option_copied row.entry)) }
{
    match write {
        None => policy_kept(row),
        Some(write) => policy_left(alloc, write),
    }
}

fn value_written(
    alloc: Global,
    version: Version,
    write: &Write<'_>,
    policy_write: Option<&PolicyWrite<'_>>,
    row: Option<&Row>,
) -> Result<Option<Row>, AllocError>
    ensures { IfOk result (λ after. after ≡ effect.row_after version (Some write.now) (option_copied policy_write.entry) (option_copied row.entry)) }
{
    match &write.value {
        None => Ok(None),
        Some(value) => Ok(Some(Row {
            value: Part::copied(alloc, value.as_slice())?,
            version,
            policy: policy_after(alloc, policy_write, row)?,
        })),
    }
}

fn policy_written(
    alloc: Global,
    version: Version,
    policy_write: &PolicyWrite<'_>,
    row: Option<&Row>,
) -> Result<Option<Row>, AllocError>
    ensures { IfOk result (λ after. after ≡ effect.row_after version None (Some policy_write.now) (option_copied row.entry)) }
{
    with_policy(version, policy_left(alloc, policy_write)?, row)
}

/// What the transaction makes of a key's row.
fn effect_at(
    alloc: Global,
    version: Version,
    tx: &Tx<'_>,
    key: &StateKey<'_>,
    row: Option<&Row>,
) -> Result<Option<Row>, AllocError>
    ensures { IfOk result (λ after. after ≡ effect.effect_at version tx.now (key_of key.now) (option_copied row.entry)) }
{
    let policy_write = policy_write_of(tx, key);
    match (write_of(tx, key), policy_write) {
        (Some(write), _) => value_written(alloc, version, write, policy_write, row),
        (None, Some(policy_write)) => policy_written(alloc, version, policy_write, row),
        (None, None) => share_row(row),
    }
}

fn change_at(
    alloc: Global,
    version: Version,
    tx: &Tx<'_>,
    state: StateNow<'_>,
    key: &StateKey<'_>,
) -> Result<Change, AllocError>
    ensures { IfOk result (λ c. change_of c ≡ (key_of key.now, effect.effect_at version tx.now (key_of key.now) (get (state_now state.entry) (key_of key.now)))) }
{
    let row = effect_at(alloc, version, tx, key, state.row(key))?;
    let key = KeptKey::copied(alloc, &key.namespace, &key.key)?;
    change_to(alloc, key, row)
}

/// The changes of the state by a valid transaction.
pub(crate) fn changes_of(
    alloc: Global,
    version: Version,
    open_tx: &OpenTx<'_>,
    state: StateNow<'_>,
) -> Result<Vec<Change>, AllocError>
    ensures { IfOk result (λ changes. changes_in changes.items ≡ effect.changes_of version open_tx.now.tx (state_now state.entry)) }
{
    let mut changes = Vec::new(alloc);
    for key in &open_tx.written {
        changes.push(change_at(alloc, version, &open_tx.tx, state, key)?)?;
    }
    Ok(changes)
}
