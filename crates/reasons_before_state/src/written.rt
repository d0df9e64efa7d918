//! The keys that a transaction writes.
ghost use Rattle.std.specs.Prelude.{◌≡◌, ◌++◌, IfOk, OnOk};
ghost use Rattle.rules.specs.Effect.{value_keys_in, policy_keys_in, written_keys};

use state_keys::StateKey;
use std::alloc::{AllocError, Global};
use transaction::{NsSet, Tx};

fn add_values<'a>(keys: &mut Vec<StateKey<'a>>, set: &NsSet<'a>) -> Result<(), AllocError>
    ensures { OnOk result (keys.new.items ≡ keys.old.items ++ value_keys_in set.now) }
{
    for write in set.writes.as_slice() {
        keys.push(StateKey::new(&set.name, &write.key))?;
    }
    Ok(())
}

fn add_policies<'a>(keys: &mut Vec<StateKey<'a>>, set: &NsSet<'a>) -> Result<(), AllocError>
    ensures { OnOk result (keys.new.items ≡ keys.old.items ++ policy_keys_in set.now) }
{
    for write in set.policy_writes.as_slice() {
        keys.push(StateKey::new(&set.name, &write.key))?;
    }
    Ok(())
}

/// The keys that a transaction writes, in its own order; one that it writes by value and by policy twice. Memory for a list of
/// them, which are lent.
pub fn written_keys<'a>(alloc: Global, tx: &Tx<'a>) -> Result<Vec<StateKey<'a>>, AllocError>
    ensures { IfOk result (λ keys. keys.items ≡ written_keys tx.now) }
{
    let mut keys = Vec::new(alloc);
    for set in tx.namespaces.as_slice() {
        add_values(&mut keys, set)?;
        add_policies(&mut keys, set)?;
    }
    Ok(keys)
}
