//! For each task the list of those that wait for it, all linked in one array: a task is on one list at most.
ghost use Rattle.std.specs.Prelude.{◌≡◌, ℕ, ◌<◌, ◌≤◌, [], ◌∷◌, false, length, replicate, slice_set, IfOk};
ghost use Rattle.task_desk.specs.Waiting.{has, list_at};

use std::alloc::{AllocError, Global};
use std::marker::Model;

/// The first task of a list, and how many it has.
#[derive(Clone, Copy, Debug, PartialEq, Eq)]
struct WaitList {
    first: u16,
    count: u16,
}

/// A contract sees the lists.
#[derive(Drop)]
pub(crate) struct WaitLists {
    lists: Vec<WaitList>,
    next: Vec<u16>,
    // false only where each is empty, which saves a look at them
    has_waiting: bool,
}

impl Model for WaitLists {
    ghost use Rattle.std.specs.Prelude.{◌≡◌, List, ℕ, length, map};
    ghost use Rattle.task_desk.specs.Links.{list_of, AreKept};

    ghost Value = { List (List ℕ) };

    ghost view = { λ w. map (list_of w.next.items) w.lists.items };

    ghost invariant = { λ w. AreKept w.next.items w.lists.items w.has_waiting };
}

/// What is left of a list. A contract sees it.
#[derive(Drop)]
pub(crate) struct Waiting<'a> {
    next: &'a [u16],
    first: u32,
    count: u32,
}

impl<'a> Model for Waiting<'a> {
    ghost use Rattle.std.specs.Prelude.{List, ℕ, length};
    ghost use Rattle.task_desk.specs.Waiting.{chain};
    ghost use Rattle.task_desk.specs.Links.{AreBelow};

    ghost Value = { List ℕ };

    ghost view = { λ w. chain w.next.now w.first w.count };

    ghost invariant = { λ w. AreBelow (chain w.next.now w.first w.count) (length w.next.now) };
}

impl<'a> Iterator for Waiting<'a> {
    ghost use Rattle.std.specs.Iterator.{YieldsFirstBy, item_count};

    type Item = u32;

    ghost next_gives = { YieldsFirstBy (λ x. x) (λ left. left) };

    ghost remaining = { item_count (λ left. left) };

    fn next(&mut self) -> Option<u32> {
        if self.count == 0 {
            return None;
        }
        let task = self.first;
        self.first = u32::from(self.next[task as usize]);
        self.count -= 1;
        Some(task)
    }
}

fn empty_lists(alloc: Global, count: usize) -> Result<Vec<WaitList>, AllocError>
    ensures { IfOk result (λ lists. lists.items ≡ replicate count (record { first = 0; count = 0 })) }
{
    let list = WaitList { first: 0, count: 0 };
    vec![in alloc; list; count]
}

fn no_links(alloc: Global, count: usize) -> Result<Vec<u16>, AllocError>
    ensures { IfOk result (λ links. links.items ≡ replicate count 0) }
{
    vec![in alloc; 0; count]
}

impl WaitLists {
    /// Empty lists of so many tasks.
    pub fn new(alloc: Global, count: usize) -> Result<WaitLists, AllocError>
        requires { count ≤ 8192 }
        ensures { IfOk result (λ w. w ≡ replicate count []) }
    {
        let lists = empty_lists(alloc, count)?;
        let next = no_links(alloc, count)?;
        Ok(WaitLists {
            lists,
            next,
            has_waiting: false,
        })
    }

    /// False only where each list is empty.
    pub fn has_waiting(&self) -> bool
        ensures { result ≡ false → (h : ℕ) → list_at self.now h ≡ [] }
    {
        self.has_waiting
    }

    /// Puts a task that is on no list in front of one.
    pub fn push(&mut self, h: u32, task: u32)
        requires list { h < length self.old }
        requires task { task < length self.old }
        requires apart { (g : ℕ) → has (list_at self.old g) task ≡ false }
        requires room { length (list_at self.old h) ≤ 8192 }
        ensures { self.new ≡ slice_set self.old h (task ∷ list_at self.old h) }
    {
        let list = &mut self.lists[h as usize];
        self.next[task as usize] = list.first;
        list.first = task as u16;
        list.count += 1;
        self.has_waiting = true;
    }

    /// The tasks of a list.
    pub fn on(&self, h: u32) -> Waiting<'_>
        requires { h < length self.now }
        ensures { result ≡ list_at self.now h }
    {
        let next = self.next.as_slice();
        if !self.has_waiting {
            return Waiting {
                next,
                first: 0,
                count: 0,
            };
        }
        let list = self.lists[h as usize];
        Waiting {
            next,
            first: u32::from(list.first),
            count: u32::from(list.count),
        }
    }

    /// Leaves a list empty.
    pub fn clear(&mut self, h: u32)
        requires { h < length self.old }
        ensures { self.new ≡ slice_set self.old h [] }
    {
        if self.has_waiting {
            self.lists[h as usize].count = 0;
        }
    }
}
