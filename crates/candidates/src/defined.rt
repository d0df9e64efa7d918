//! Whether the chaincodes that a transaction names have definitions.
ghost use Rattle.std.specs.Prelude.{◌≡◌, ◌==◌, ◌&&◌, ◌++◌, length, flat_map};
ghost use Rattle.std.specs.List.{list_all};
ghost use Rattle.rules.specs.Candidate.{is_defined, is_all_defined};
ghost use Rattle.rules.specs.Effect.{value_keys_in, policy_keys_in};

use policy::Definitions;
use transaction::{NsSet, Tx};
use values::NameRef;

fn is_defined(definitions: &Definitions, namespace: &NameRef<'_>) -> bool
    ensures { result ≡ is_defined definitions.now namespace.now }
{
    definitions.of(namespace).is_some()
}

fn is_read_only(set: &NsSet<'_>) -> bool
    ensures { result ≡ (length set.now.writes == 0 && length set.now.policy_writes == 0) }
{
    set.writes.is_empty() && set.policy_writes.is_empty()
}

/// Whether the namespace has a definition, or no writes.
fn is_set_defined(definitions: &Definitions, set: &NsSet<'_>) -> bool
    ensures { result ≡ list_all (λ k. is_defined definitions.now k.0) (value_keys_in set.now ++ policy_keys_in set.now) }
{
    is_read_only(set) || is_defined(definitions, &set.name)
}

fn are_sets_defined(definitions: &Definitions, sets: &[NsSet<'_>]) -> bool
    ensures { result ≡ list_all (λ k. is_defined definitions.now k.0) (flat_map (λ n. value_keys_in n ++ policy_keys_in n) sets.now) }
{
    for set in sets {
        if !is_set_defined(definitions, set) {
            return false;
        }
    }
    true
}

/// Whether the named chaincode, and each namespace with writes, has a definition. A look-up for each of them.
pub(crate) fn is_all_defined(definitions: &Definitions, tx: &Tx<'_>) -> bool
    ensures { result ≡ is_all_defined definitions.now tx.now }
{
    is_defined(definitions, &tx.chaincode)
        && are_sets_defined(definitions, tx.namespaces.as_slice())
}
