use crate::hash_index::HashIndex;
use crate::lists::{Listed, entry_at, newest_of};
use rules::KeptEntry;
use std::marker::Model;
use values::{KeyRef, NameRef};

/// The entries of a key, borrowed, newest first. A contract sees the list of those that are left.
#[derive(Drop)]
pub struct Entries<'a> {
    pub(crate) lists: &'a [Listed],
    pub(crate) list_of: &'a [u32],
    pub(crate) index: &'a HashIndex,
    pub(crate) place: usize,
    pub(crate) namespace: NameRef<'a>,
    pub(crate) key: KeyRef<'a>,
}

impl<'a> Model for Entries<'a> {
    ghost use Rattle.std.specs.Prelude.{List, ◌≡◌};
    ghost use Rattle.rules.specs.declared.history.HistoryEntry.{HistoryEntry};

    ghost Value = { List HistoryEntry };

    ghost use Rattle.history_index.specs.Lists.{all_entries, entries_before, hashes_of, AreIn, IsChain};

    ghost view = { λ e. entries_before (all_entries e.lists.now) (e.namespace, e.key) e.place };

    ghost invariant = { λ e. AreIn e.lists.now e.list_of.now × (e.index.now.hashes ≡ hashes_of (all_entries e.lists.now)) × IsChain (e.namespace, e.key) (all_entries e.lists.now) e.place };
}

impl<'a> Iterator for Entries<'a> {
    ghost use Rattle.std.specs.Iterator.{YieldsFirstBy, item_count};

    type Item = &'a KeptEntry;

    ghost next_gives = { YieldsFirstBy (λ e. e.now.entry) (λ left. left) };

    ghost remaining = { item_count (λ left. left) };

    fn next(&mut self) -> Option<&'a KeptEntry> {
        let place = newest_of(
            self.lists,
            self.list_of,
            self.index,
            self.place,
            &self.namespace,
            &self.key,
        );
        if place == 0 {
            self.place = 0;
            return None;
        }
        self.place = self.index.before(place);
        Some(entry_at(self.lists, self.list_of, place))
    }
}
