ghost use Rattle.std.specs.Prelude.{◌≡◌, ◌≤◌, ◌+◌, ◌++◌, length, map, replicate, OnOk, OnErr, vec_len, vec_capacity};
ghost use Rattle.std.specs.FinMap.{empty};
ghost use Rattle.rules.specs.Delta.{entries_in};
ghost use Rattle.rules.specs.History.{entries_at, with_entries};
ghost use Rattle.history_index.specs.Lists.{hashes_of};

use crate::entries::Entries;
use crate::hash::key_hash;
use crate::hash_index::HashIndex;
use crate::lists::Listed;
use rules::KeptEntry;
use std::alloc::{AllocError, Global};
use std::marker::Model;
use values::{Items, KeyRef, NameRef, Shared};

/// The entries of all keys. A contract sees the history, and the room for a list of more entries.
#[derive(Drop)]
pub struct HistoryIndex {
    lists: Vec<Listed>,
    // for each entry the number of its list, in the order in which they came
    list_of: Vec<u32>,
    // of all entries, in this order, by the hashes of their keys
    index: HashIndex,
    // how many more entries are sure to fit, in one list
    room: usize,
}

impl Model for HistoryIndex {
    ghost use Rattle.std.specs.Prelude.{◌≡◌, ◌+◌, ◌^◌, ◌<◌, ◌≤◌, vec_len, vec_capacity};
    ghost use Rattle.history_index.specs.Index.{Index, index_code};

    ghost Value = { Index };

    ghost coded = { index_code };

    ghost use Rattle.history_index.specs.Lists.{all_entries, hashes_of, history_of, AreIn};

    ghost view = { λ i. record { history = history_of (all_entries i.lists.items); room = i.room } };

    ghost invariant = { λ i. AreIn i.lists.items i.list_of.items × (i.index.hashes ≡ hashes_of (all_entries i.lists.items))
        × (vec_len i.list_of + i.room ≤ vec_capacity i.list_of) × (i.room ≤ i.index.room) × (vec_len i.list_of + i.room < 2 ^ 32)
        × (0 < i.room → vec_len i.lists < vec_capacity i.lists) × (vec_len i.lists ≤ vec_len i.list_of) };
}

/// Adds the entries of the list of this number to those that are found. Takes no memory.
fn add_all(list_of: &mut Vec<u32>, index: &mut HashIndex, list: u32, entries: &[KeptEntry])
    requires list_of { vec_len list_of.old + length entries.now ≤ vec_capacity list_of.old }
    requires index { length entries.now ≤ index.old.room }
    ensures list_of { list_of.new.items ≡ list_of.old.items ++ replicate (length entries.now) list }
    ensures index { index.new.hashes ≡ index.old.hashes ++ hashes_of entries.now }
{
    for entry in entries {
        list_of.push_reserved(list);
        index.push(key_hash(&entry.namespace(), &entry.key()));
    }
}

impl HistoryIndex {
    /// No entries, and no room. Takes no memory.
    pub fn new(alloc: Global) -> HistoryIndex
        ensures history { result.history ≡ empty }
        ensures room { result.room ≡ 0 }
    {
        HistoryIndex {
            lists: Vec::new(alloc),
            list_of: Vec::new(alloc),
            index: HashIndex::new(alloc),
            room: 0,
        }
    }

    /// How many entries can be added in one list before the next `reserve`.
    pub fn room(&self) -> usize
        ensures { result ≡ self.now.room }
    {
        self.room
    }

    /// Makes room for a list of this many entries; fails if there would be 2^32 or more in all. An `Err` changes
    /// nothing. Linear in the entries if the index grows, which it does seldom enough that all calls together are
    /// linear in the room that they request.
    pub fn reserve(&mut self, additional: usize) -> Result<(), AllocError>
        ensures ok { OnOk result (additional ≤ self.new.room) }
        ensures room { self.old.room ≤ self.new.room }
        ensures history { self.new.history ≡ self.old.history }
        ensures err { OnErr result (self.new ≡ self.old) }
    {
        self.lists.reserve(1)?;
        self.list_of.reserve(additional)?;
        self.index.reserve(additional)?;
        self.room = self.room.max(additional);
        Ok(())
    }

    /// Adds entries one after the other, each the newest of its key. The room that is left may be given up. Linear in
    /// them, no memory.
    pub fn add(&mut self, entries: Shared<Items<KeptEntry>>)
        requires { length entries ≤ self.old.room }
        ensures history { self.new.history ≡ with_entries self.old.history (entries_in entries) }
    {
        if entries.get().is_empty() {
            return;
        }
        let list = self.lists.len() as u32;
        let first = self.list_of.len() as u32;
        add_all(
            &mut self.list_of,
            &mut self.index,
            list,
            entries.get().as_slice(),
        );
        self.lists.push_reserved(Listed { first, entries });
        self.room = 0;
    }

    /// The entries of a key, the newest first. Constant time on average, and so is each step: a key of the same hash is
    /// skipped.
    pub fn entries<'a>(&'a self, namespace: &NameRef<'a>, key: &KeyRef<'a>) -> Entries<'a>
        ensures { result ≡ entries_at self.now.history (namespace.now, key.now) }
    {
        Entries {
            lists: self.lists.as_slice(),
            list_of: self.list_of.as_slice(),
            index: &self.index,
            place: self.index.last(key_hash(namespace, key)),
            namespace: namespace.reborrow(),
            key: key.reborrow(),
        }
    }
}
