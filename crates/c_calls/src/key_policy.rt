//! The policy that a key has of its own.
ghost use Rattle.std.specs.Prelude.{◌≡◌, ◌&&◌, option_and_then};
ghost use Rattle.std.specs.Bool.{MatchBool};
ghost use Rattle.std.specs.Option.{option_copied};
ghost use Rattle.values.specs.Name as name;
ghost use Rattle.values.specs.Key as key;
ghost use Rattle.c_calls.specs.Asked.{NotFilled, TextGiven, key_policy_answer, KeyPolicyTold};

use crate::codes::{CLOSED, NO_NAME};
use crate::definition::tell_text;
use c_handle::{Handle, Kept};
use policy::Policy;
use rules::Row;
use std::alloc::Global;
use values::{KeyRef, NameRef, is_key, is_name};

fn own_policy<'a>(row: Option<&'a Row>) -> Option<&'a Policy>
    ensures { option_copied result ≡ option_and_then (λ r. r.policy) (option_copied row.entry) }
{
    match row {
        None => None,
        Some(row) => match &row.policy {
            None => None,
            Some(own) => Some(own.get()),
        },
    }
}

fn key_policy(
    alloc: Global,
    kept: &Kept,
    namespace: &[u8],
    row_key: &[u8],
    text: &mut [u8],
    len: &mut usize,
) -> u32
    ensures { MatchBool (name.is_name namespace.now && key.is_key row_key.now)
        (TextGiven (key_policy_answer kept.now.ledger.world (namespace.now, row_key.now)) text.old text.new len.old len.new result)
        (NotFilled NO_NAME text.old text.new len.old len.new result) }
{
    if !is_name(namespace) || !is_key(row_key) {
        return NO_NAME;
    }
    let (namespace, row_key) = (NameRef::new(namespace), KeyRef::new(row_key));
    let own = own_policy(kept.ledger.get().view().row(&namespace, &row_key));
    tell_text(alloc, own, text, len)
}

/// Tells the canonical text of the policy that a key has of its own.
pub fn fabcommit_key_policy(
    alloc: Global,
    handle: &mut Handle,
    namespace: &[u8],
    row_key: &[u8],
    text: &mut [u8],
    len: &mut usize,
) -> u32
    ensures same { handle.new.held.value ≡ handle.old.held.value }
    ensures told { KeyPolicyTold handle.old.held.value namespace.now row_key.now text.old text.new len.old len.new result }
{
    let Some(kept) = handle.take(alloc) else {
        return CLOSED;
    };
    let code = key_policy(alloc, &kept, namespace, row_key, text, len);
    handle.put(kept);
    code
}
