//! Lists that share one array: each entry is linked to the one that its list goes on with.
ghost use Rattle.std.specs.Prelude.{◌≡◌, ◌≢◌, ◌<◌, ◌∷◌, ℕ, [], None, length, IfOk, IfSome, OnOk, replicate, slice_index_or};
ghost use Rattle.key_chains.specs.Linked.{chain_in, list_of, IsLink, LinksStay};
ghost use Rattle.key_chains.specs.Lists.{lists_of, AreLinkedBack};
ghost use Rattle.key_chains.specs.Older.{older_than};

use crate::operation::Operation;
use std::alloc::{AllocError, Global};
use std::marker::Model;

/// An item, and the entry of the next older one of its list.
#[derive(Clone, Copy)]
pub(crate) struct Entry<T> {
    pub item: T,
    pub older: Option<u32>,
}

/// An entry, which begins the list of its number.
fn entry_at<T: Copy>(entries: &[Entry<T>], number: u32) -> Entry<T>
    requires back { AreLinkedBack entries.now }
    requires place { number < length (lists_of entries.now) }
    ensures list { slice_index_or (lists_of entries.now) number [] ≡ result.item ∷ chain_in (lists_of entries.now) result.older }
    ensures link { IsLink (lists_of entries.now) result.older }
    ensures older { IfSome result.older (λ m. m < number) }
{
    entries[number as usize]
}

/// What is left of a list, the newest first. A contract sees the list.
#[derive(Drop)]
pub struct Chain<'a, T: Copy> {
    entries: &'a [Entry<T>],
    link: Option<u32>,
}

/// The operations on a key, the newest first.
pub type Operations<'a> = Chain<'a, Operation>;

/// The candidates that write the policy of a key, the newest first.
pub type PolicyWriters<'a> = Chain<'a, u32>;

impl<'a, T: Copy> Model for Chain<'a, T> {
    ghost use Rattle.std.specs.Prelude.{List};
    ghost use Rattle.key_chains.specs.Linked.{chain_in, IsLink};
    ghost use Rattle.key_chains.specs.Lists.{lists_of, AreLinkedBack};

    ghost Value = { List T };

    ghost view = { λ c. chain_in (lists_of c.entries.now) c.link };

    ghost invariant = { λ c. AreLinkedBack c.entries.now × IsLink (lists_of c.entries.now) c.link };
}

impl<'a, T: Copy> Iterator for Chain<'a, T> {
    ghost use Rattle.std.specs.Iterator.{YieldsFirstBy, item_count};

    type Item = T;

    ghost next_gives = { YieldsFirstBy (λ x. x) (λ left. left) };

    ghost remaining = { item_count (λ left. left) };

    fn next(&mut self) -> Option<T> {
        let Some(number) = self.link else {
            return None;
        };
        let entry = entry_at(self.entries, number);
        self.link = entry.older;
        Some(entry.item)
    }
}

/// The link to the newest operation before candidate i, from one to a newer operation on its key.
fn newest_before(entries: &[Entry<Operation>], newest: Option<u32>, i: u32) -> Option<u32>
    requires back { AreLinkedBack entries.now }
    requires link { IsLink (lists_of entries.now) newest }
    ensures list { chain_in (lists_of entries.now) result ≡ older_than i (chain_in (lists_of entries.now) newest) }
    ensures link { IsLink (lists_of entries.now) result }
{
    let mut link = newest;
    while let Some(number) = link {
        let entry = entry_at(entries, number);
        if entry.item.tx < i {
            return link;
        }
        link = entry.older;
    }
    None
}

impl<'a> Chain<'a, Operation> {
    /// The operations before candidate i. Linear in those that are passed over.
    pub(crate) fn before(self, i: u32) -> Chain<'a, Operation>
        ensures { result ≡ older_than i self.entry }
    {
        Chain {
            entries: self.entries,
            link: newest_before(self.entries, self.link, i),
        }
    }
}

/// The lists of numbered keys. A contract sees for each entry the list that it begins, and for each key the newest entry
/// of its list.
#[derive(Drop)]
pub(crate) struct KeyLists<T: Copy> {
    entries: Vec<Entry<T>>,
    newest: Vec<Option<u32>>,
}

impl<T: Copy> Model for KeyLists<T> {
    ghost use Rattle.std.specs.Prelude.{ℕ, List, Option};

    ghost Value = { List (List T) × List (Option ℕ) };

    ghost use Rattle.std.specs.Prelude.{All};
    ghost use Rattle.key_chains.specs.Linked.{IsLink};
    ghost use Rattle.key_chains.specs.Lists.{lists_of, AreLinkedBack};

    ghost view = { λ l. (lists_of l.entries.items, l.newest.items) };

    ghost invariant = { λ l. AreLinkedBack l.entries.items × All (IsLink (lists_of l.entries.items)) l.newest.items };
}

/// So many links that lead nowhere.
fn no_links(alloc: Global, count: usize) -> Result<Vec<Option<u32>>, AllocError>
    ensures { IfOk result (λ links. links.items ≡ replicate count None) }
{
    vec![in alloc; None; count]
}

impl<T: Copy> KeyLists<T> {
    /// Empty lists of so many keys, with room for so many entries.
    pub fn with_capacity(
        alloc: Global,
        keys: usize,
        entries: usize,
    ) -> Result<KeyLists<T>, AllocError>
        ensures { IfOk result (λ l. l ≡ ([], replicate keys None)) }
    {
        Ok(KeyLists {
            entries: Vec::with_capacity(alloc, entries)?,
            newest: no_links(alloc, keys)?,
        })
    }

    /// The entry that a key's list begins with now.
    pub fn newest(&self, key: u32) -> Option<u32>
        requires { key < length self.now.1 }
        ensures value { result ≡ slice_index_or self.now.1 key None }
        ensures link { IsLink self.now.0 result }
    {
        self.newest[key as usize]
    }

    /// The list that a link leads to.
    pub fn chain(&self, link: Option<u32>) -> Chain<'_, T>
        requires { IsLink self.now.0 link }
        ensures { result ≡ chain_in self.now.0 link }
    {
        Chain {
            entries: self.entries.as_slice(),
            link,
        }
    }

    /// Puts an item in front of a key's list.
    pub fn push(&mut self, key: u32, item: T) -> Result<(), AllocError>
        requires { key < length self.old.1 }
        ensures key { OnOk result (list_of self.new key ≡ item ∷ list_of self.old key) }
        ensures others { OnOk result ((k : ℕ) → k ≢ key → list_of self.new k ≡ list_of self.old k) }
        ensures links { OnOk result (LinksStay self.old self.new) }
        ensures count { OnOk result (length self.new.1 ≡ length self.old.1) }
    {
        let Ok(number) = u32::try_from(self.entries.len()) else {
            return Err(AllocError);
        };
        let older = self.newest[key as usize];
        self.entries.push(Entry { item, older })?;
        self.newest[key as usize] = Some(number);
        Ok(())
    }
}
