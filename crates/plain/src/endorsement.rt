//! The endorsement rule.
ghost use Rattle.std.specs.Prelude.{◌≡◌};
ghost use Rattle.std.specs.List.{list_all, list_any};
ghost use Rattle.std.specs.Str.{bytes_eq};
ghost use Rattle.std.specs.Option.{option_copied};
ghost use Rattle.rules.specs.State.{is_among, policy_in};
ghost use Rattle.rules.specs.Endorsement.{meets, governing, may_write, is_endorsed};
ghost use Rattle.plain.specs.Keys.{key_of, keys_of};

use crate::candidate::OpenTx;
use crate::state_key::StateKey;
use crate::world::World;
use policy::{Definitions, Policy};
use policy_eval::{Signers, satisfied};
use values::NameRef;

/// Whether there is a policy, which these signers satisfy.
pub(crate) fn meets(signers: &Signers<'_>, policy: Option<&Policy>) -> bool
    ensures { result ≡ meets signers.now (option_copied policy.entry) }
{
    match policy {
        None => false,
        Some(policy) => satisfied(policy, signers),
    }
}

/// The policy that governs a key: its own before the block, else its namespace's.
fn governing<'a>(
    definitions: &'a Definitions,
    world: &'a World,
    key: &StateKey<'_>,
) -> Option<&'a Policy>
    ensures { option_copied result ≡ governing definitions.now (key_of key.now).0 (policy_in world.now.state (key_of key.now)) }
{
    if let Some(row) = world.row_at(key) {
        if let Some(own) = &row.policy {
            return Some(own.get());
        }
    }
    definitions.of(&key.namespace)
}

fn is_among(key: &StateKey<'_>, keys: &[StateKey<'_>]) -> bool
    ensures { result ≡ is_among (key_of key.now) (keys_of keys.now) }
{
    for other in keys {
        if key.is_same(other) {
            return true;
        }
    }
    false
}

fn may_write(
    definitions: &Definitions,
    world: &World,
    touched: &[StateKey<'_>],
    signers: &Signers<'_>,
    key: &StateKey<'_>,
) -> bool
    ensures { result ≡ may_write definitions.now world.now.state (keys_of touched.now) signers.now (key_of key.now) }
{
    !is_among(key, touched) && meets(signers, governing(definitions, world, key))
}

fn may_write_all(
    definitions: &Definitions,
    world: &World,
    touched: &[StateKey<'_>],
    signers: &Signers<'_>,
    keys: &[StateKey<'_>],
) -> bool
    ensures { result ≡ list_all (may_write definitions.now world.now.state (keys_of touched.now) signers.now) (keys_of keys.now) }
{
    for key in keys {
        if !may_write(definitions, world, touched, signers, key) {
            return false;
        }
    }
    true
}

fn has_key_in(keys: &[StateKey<'_>], namespace: &NameRef<'_>) -> bool
    ensures { result ≡ list_any (λ k. bytes_eq namespace.now k.0) (keys_of keys.now) }
{
    for key in keys {
        if namespace.is_same(&key.namespace) {
            return true;
        }
    }
    false
}

/// Whether each written key may be written, and the named chaincode's policy is satisfied where that namespace
/// has no writes.
pub(crate) fn is_endorsed(
    definitions: &Definitions,
    world: &World,
    touched: &[StateKey<'_>],
    open_tx: &OpenTx<'_>,
) -> bool
    ensures { result ≡ is_endorsed definitions.now world.now.state (keys_of touched.now) open_tx.now.tx open_tx.now.signers }
{
    let signers = &open_tx.signers;
    let written = open_tx.written.as_slice();
    let chaincode = &open_tx.tx.chaincode;
    may_write_all(definitions, world, touched, signers, written)
        && (has_key_in(written, chaincode) || meets(signers, definitions.of(chaincode)))
}
