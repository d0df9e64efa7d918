//! From a transaction to the keys that it writes.
ghost use Rattle.std.specs.Prelude.{◌≡◌, ◌++◌, map, flat_map, length, min, false, Some, IsTrue, IfOk, OnOk, MatchOption};
ghost use Rattle.std.specs.Bool.{then_some};
ghost use Rattle.std.specs.List.{list_all};
ghost use Rattle.std.specs.List.Sorted.{IsPermutation, IsSortedByKey};
ghost use Rattle.rules.specs.Effect as effect;
ghost use Rattle.rules.specs.State.{key_cmp};
ghost use Rattle.rules.specs.ReadWriteSets.{has_policy_in_form, is_in_form};
ghost use Rattle.candidates.specs.Form.{has_policies_in_form, are_policies_in_form, are_lists_in_form};
ghost use Rattle.candidates.specs.Gathering.{value_write, policy_write, writes_in, single_writes, joined};
ghost use Rattle.candidates.specs.Written.{IsGathered};

use crate::form::are_lists_in_form;
use crate::written_key::WrittenKey;
use crate::written_value::{Spots, WrittenValue};
use policy::{Policy, PolicyFault};
use state_keys::StateKey;
use std::alloc::{AllocError, Global};
use transaction::{NsSet, PolicyWrite, Tx, Write};
use values::Shared;

/// The policy that a policy write leaves, or nothing if its text can't be read.
fn policy_left(
    alloc: Global,
    write: &PolicyWrite<'_>,
) -> Result<Option<Option<Shared<Policy>>>, AllocError>
    ensures { IfOk result (λ left. left ≡ then_some (has_policy_in_form write.now) (effect.policy_left write.now)) }
{
    let Some(text) = &write.policy else {
        return Ok(Some(None));
    };
    match Policy::parse_bytes(alloc, text.as_slice()) {
        Ok(policy) => Ok(Some(Some(Shared::new(alloc, policy)?))),
        Err(PolicyFault::Memory) => Err(AllocError),
        Err(_) => Ok(None),
    }
}

/// The value of a write at this place, in a namespace at another.
fn new_value<'a>(write: &Write<'a>, namespace: usize, place: usize) -> Option<WrittenValue<'a>>
    ensures { result ≡ write.now.value }
{
    match &write.value {
        None => None,
        Some(value) => {
            let spots = Spots {
                namespace,
                key: place.wrapping_add(write.key_place()),
                value: place.wrapping_add(write.value_place()),
            };
            Some(WrittenValue::new(value, spots))
        }
    }
}

/// Adds what the namespace at this place writes.
fn add_values<'a>(
    written: &mut Vec<WrittenKey<'a>>,
    set: &NsSet<'a>,
    place: usize,
) -> Result<(), AllocError>
    ensures { OnOk result (written.new.items ≡ written.old.items ++ map (value_write set.now) set.now.writes) }
{
    let namespace = place.wrapping_add(set.name_place());
    let mut place = place.wrapping_add(set.writes_place());
    for write in set.writes.as_slice() {
        written.push(WrittenKey {
            key: StateKey::new(&set.name, &write.key),
            value: Some(new_value(write, namespace, place)),
            policy: None,
        })?;
        place = place.wrapping_add(write.spelled_len());
    }
    Ok(())
}

/// Whether all policies could be read, and so were added.
fn add_policies<'a>(
    alloc: Global,
    written: &mut Vec<WrittenKey<'a>>,
    set: &NsSet<'a>,
) -> Result<bool, AllocError>
    ensures form { IfOk result (λ fine. fine ≡ has_policies_in_form set.now) }
    ensures added { IfOk result (λ fine. IsTrue fine → written.new.items ≡ written.old.items ++ map (policy_write set.now) set.now.policy_writes) }
{
    for write in set.policy_writes.as_slice() {
        let Some(policy) = policy_left(alloc, write)? else {
            return Ok(false);
        };
        written.push(WrittenKey {
            key: StateKey::new(&set.name, &write.key),
            value: None,
            policy: Some(policy),
        })?;
    }
    Ok(true)
}

/// How many values and policies the sets write, or the greatest number if there are more.
fn count_writes(sets: &[NsSet<'_>]) -> usize
    ensures { result ≡ min (length (flat_map writes_in sets.now)) usize.MAX }
{
    let mut count = 0_usize;
    for set in sets {
        count = count
            .saturating_add(set.writes.len())
            .saturating_add(set.policy_writes.len());
    }
    count
}

/// Each value and each policy that it writes by itself, or nothing if a policy can't be read.
fn single_writes<'a>(alloc: Global, tx: &Tx<'a>) -> Result<Option<Vec<WrittenKey<'a>>>, AllocError>
    ensures { IfOk result (λ writes. MatchOption writes (are_policies_in_form tx.now ≡ false) (λ ws. IsTrue (are_policies_in_form tx.now) × (ws.items ≡ single_writes tx.now))) }
{
    let sets = tx.namespaces.as_slice();
    let mut written = Vec::with_capacity(alloc, count_writes(sets))?;
    let mut place = tx.namespaces_place();
    for set in sets {
        add_values(&mut written, set, place)?;
        place = place.wrapping_add(set.spelled_len());
        if !add_policies(alloc, &mut written, set)? {
            return Ok(None);
        }
    }
    Ok(Some(written))
}

/// The neighbours of one key as one.
fn joined<'a>(mut written: Vec<WrittenKey<'a>>) -> Vec<WrittenKey<'a>>
    ensures { result.items ≡ joined written.entry.items }
{
    written.dedup_by(|next, kept| kept.join(next));
    written
}

fn in_order<'a>(mut written: Vec<WrittenKey<'a>>) -> Vec<WrittenKey<'a>>
    ensures moved { IsPermutation written.entry.items result.items }
    ensures sorted { IsSortedByKey (λ w. w.key) key_cmp result.items }
{
    written.sort_unstable_by_key(|write| write.key.reborrow());
    written
}

/// The keys that it writes in their order, each once, with what it writes there; nothing if a policy can't be read.
fn gathered<'a>(alloc: Global, tx: &Tx<'a>) -> Result<Option<Vec<WrittenKey<'a>>>, AllocError>
    requires { IsTrue (are_lists_in_form tx.now) }
    ensures { IfOk result (λ writes. MatchOption writes (is_in_form tx.now ≡ false) (λ ws. IsGathered tx.now ws.items)) }
{
    match single_writes(alloc, tx)? {
        None => Ok(None),
        Some(written) => Ok(Some(joined(in_order(written)))),
    }
}

/// What it writes, if its read and write sets are well-formed.
///
/// Each policy is read once. The keys are sorted: n log n comparisons, n if they are in order already. The memory is
/// that of the result, but that a key with value and policy is there twice at first.
pub(crate) fn written_in_form<'a>(
    alloc: Global,
    tx: &Tx<'a>,
) -> Result<Option<Vec<WrittenKey<'a>>>, AllocError>
    ensures { IfOk result (λ writes. MatchOption writes (is_in_form tx.now ≡ false) (λ ws. IsGathered tx.now ws.items)) }
{
    if !are_lists_in_form(alloc, tx)? {
        return Ok(None);
    }
    gathered(alloc, tx)
}
