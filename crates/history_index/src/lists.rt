ghost use Rattle.std.specs.Prelude.{◌≡◌, ◌<◌, ◌≤◌, ◌-◌, length, get_or};
ghost use Rattle.rules.specs.State.{is_same_key};
ghost use Rattle.history_index.specs.Lists.{all_entries, entries_before, hashes_of, no_entry, AreIn, IsChain, IsPlace};

use crate::hash_index::HashIndex;
use rules::KeptEntry;
use values::{Items, KeyRef, NameRef, Shared};

/// Entries that follow one another, shared by all indexes that have them.
pub(crate) type SharedList = Shared<Items<KeptEntry>>;

/// A list of entries, and how many there are in the lists before it.
#[derive(Drop)]
pub(crate) struct Listed {
    pub first: u32,
    pub entries: SharedList,
}

/// The entry at a place of all lists. Places count from 1.
pub(crate) fn entry_at<'a>(lists: &'a [Listed], list_of: &[u32], place: usize) -> &'a KeptEntry
    requires lists { AreIn lists.now list_of.now }
    requires some { 0 < place }
    requires bound { place ≤ length list_of.now }
    ensures { result.now ≡ get_or (all_entries lists.now) (place - 1) no_entry }
{
    let number = place - 1;
    let list = &lists[list_of[number] as usize];
    &list.entries.get().as_slice()[number - list.first as usize]
}

fn is_of(entry: &KeptEntry, namespace: &NameRef<'_>, key: &KeyRef<'_>) -> bool
    ensures { result ≡ is_same_key (namespace.now, key.now) entry.now.key }
{
    namespace.is_same(&entry.namespace()) && key.is_same(&entry.key())
}

/// The place of the newest entry of a key, from a place of the same hash on. 0 is none.
pub(crate) fn newest_of(
    lists: &[Listed],
    list_of: &[u32],
    index: &HashIndex,
    from: usize,
    namespace: &NameRef<'_>,
    key: &KeyRef<'_>,
) -> usize
    requires lists { AreIn lists.now list_of.now }
    requires hashes { index.now.hashes ≡ hashes_of (all_entries lists.now) }
    requires chain { IsChain (namespace.now, key.now) (all_entries lists.now) from }
    ensures entries { entries_before (all_entries lists.now) (namespace.now, key.now) result ≡ entries_before (all_entries lists.now) (namespace.now, key.now) from }
    ensures place { IsPlace (namespace.now, key.now) (all_entries lists.now) result }
    ensures bound { result ≤ from }
{
    let mut place = from;
    while place > 0 {
        let entry = entry_at(lists, list_of, place);
        if is_of(entry, namespace, key) {
            return place;
        }
        place = index.before(place);
    }
    0
}
