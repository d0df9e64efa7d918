//! Where the first use of an id is found: by the hash of the id where no other id has it, else by the id.
ghost use Rattle.std.specs.Prelude.{◌≡◌, ◌<◌, ◌≤◌, ◌+◌, ℕ, List, [], ◌∷◌, ◌==◌, Some, if◌then◌else◌, OnOk, vec_len, vec_capacity};
ghost use Rattle.std.specs.HashMap.{spare};
ghost use Rattle.rules.specs.FirstUses.{FirstUses, with_uses};
ghost use Rattle.txid_index.specs.Found.{first_at, other_of, found, IsIndex, IsOneMore};
ghost use Rattle.txid_index.specs.Lists.{IsAt, AreThere};

use crate::hash::id_hash;
use crate::id_key::IdKey;
use crate::lists::{SharedUses, UsePlace};
use rules::{FirstUse, NewUse};
use std::alloc::AllocError;
use std::collections::HashMap;
use transaction::TxId;

/// Where an id was used first, of the uses in these lists.
pub(crate) fn first_use_of(
    lists: &[SharedUses],
    firsts: &HashMap<u32, UsePlace>,
    others: &HashMap<IdKey, FirstUse>,
    id: &TxId,
) -> Option<FirstUse>
    requires { AreThere lists.now firsts.now.entries }
    ensures { result ≡ found lists.now firsts.now.entries others.now.entries id.now }
{
    let first = firsts.get(&id_hash(id)).copied()?;
    let used = first.used(lists);
    if used.id == *id {
        return Some(used.first_use);
    }
    others.get(&IdKey::new(id)).copied()
}

/// Makes room for one list more, of so many uses. An `Err` changes nothing but the room.
pub(crate) fn make_room(
    lists: &mut Vec<SharedUses>,
    firsts: &mut HashMap<u32, UsePlace>,
    others: &mut HashMap<IdKey, FirstUse>,
    additional: usize,
) -> Result<(), AllocError>
    ensures lists { lists.new.items ≡ lists.old.items }
    ensures firsts { (hash : ℕ) → first_at firsts.new.entries hash ≡ first_at firsts.old.entries hash }
    ensures others { (id : List ℕ) → other_of others.new.entries id ≡ other_of others.old.entries id }
    ensures len { vec_len lists.new ≡ vec_len lists.old }
    ensures more { (vec_capacity lists.old ≤ vec_capacity lists.new) × (spare firsts.old ≤ spare firsts.new) × (spare others.old ≤ spare others.new) }
    ensures room { OnOk result ((vec_len lists.new < vec_capacity lists.new) × (additional ≤ spare firsts.new) × (additional ≤ spare others.new)) }
{
    lists.reserve(1)?;
    firsts.reserve(additional)?;
    others.reserve(additional)
}

/// Keeps the place for a hash that has none. Takes no memory.
fn keep_first(firsts: &mut HashMap<u32, UsePlace>, hash: u32, place: UsePlace)
    requires { 0 < spare firsts.old }
    ensures kept { (q : ℕ) → first_at firsts.new.entries q ≡ (if hash == q then Some place else first_at firsts.old.entries q) }
    ensures spare { spare firsts.old ≤ spare firsts.new + 1 }
{
    let _ = firsts.insert(hash, place);
}

/// Keeps a use by its id, if there is none yet. Takes no memory.
fn keep_other(others: &mut HashMap<IdKey, FirstUse>, used: &NewUse)
    requires { 0 < spare others.old }
    ensures kept { IsOneMore others.old.entries used.now others.new.entries }
    ensures spare { spare others.old ≤ spare others.new + 1 }
{
    let key = IdKey::new(&used.id);
    if !others.contains_key(&key) {
        let _ = others.insert(key, used.first_use);
    }
}

/// Finds the use at this place from now on, where its id has none yet. Takes no memory.
pub(crate) fn add_one(
    lists: &[SharedUses],
    firsts: &mut HashMap<u32, UsePlace>,
    others: &mut HashMap<IdKey, FirstUse>,
    place: UsePlace,
    used: &NewUse,
)
    requires there { AreThere lists.now firsts.old.entries }
    requires here { IsAt lists.now place used.now }
    requires firsts { 0 < spare firsts.old }
    requires others { 0 < spare others.old }
    ensures index { (uses : FirstUses) → IsIndex lists.now firsts.old.entries others.old.entries uses
        → IsIndex lists.now firsts.new.entries others.new.entries (with_uses uses ((used.now.id, used.now.first_use) ∷ [])) }
    ensures there { AreThere lists.now firsts.new.entries }
    ensures firsts { spare firsts.old ≤ spare firsts.new + 1 }
    ensures others { spare others.old ≤ spare others.new + 1 }
{
    let hash = id_hash(&used.id);
    match firsts.get(&hash).copied() {
        None => keep_first(firsts, hash, place),
        Some(first) => {
            if first.used(lists).id != used.id {
                keep_other(others, used);
            }
        }
    }
}
