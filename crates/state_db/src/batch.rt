ghost use Rattle.std.specs.Prelude.{◌≡◌, ◌≤◌, [], Some, None, length, IfOk, OnOk, OnErr};
ghost use Rattle.std.specs.FinMap.{empty, entries, from_sorted, insert};
ghost use Rattle.std.specs.FinMap.Entries.{put};
ghost use Rattle.rules.specs.State.{State, key_cmp, set_at, with_changes};
ghost use Rattle.rules.specs.Delta.{change_of, changes_in};
ghost use Rattle.state_db.specs.Batch.{changed};
ghost use Rattle.state_db.specs.Search.{IsSorted, is_below, ties_at, leading};

use crate::edit::Edit;
use crate::looked_up::{FoundRows, passed};
use crate::search::{Ordered, count_below};
use rules::{Change, KeptKey, KeyedRow, Row};
use state_keys::{StateKey, Wanted};
use std::alloc::{AllocError, Global};
use std::marker::Model;
use values::{Key, Name, Shared};

/// Changes of a state, of which each key has at most one: the last that was given. A contract sees the map of what
/// becomes of each key: a row, or none if it is removed.
///
/// A change whose key is after all others takes constant time, amortized; otherwise time linear in their number.
#[derive(Drop)]
pub struct Batch {
    alloc: Global,
    edits: Vec<Edit>,
}

impl Model for Batch {
    ghost use Rattle.state_db.specs.Batch.{Changes};
    ghost use Rattle.state_db.specs.Code.{changes_code};

    ghost Value = { Changes };

    ghost coded = { changes_code };

    ghost use Rattle.std.specs.FinMap.{from_sorted};
    ghost use Rattle.state_db.specs.Search.{IsSorted};

    ghost view = { λ b. from_sorted b.edits.items };

    ghost invariant = { λ b. IsSorted b.edits.items };
}

/// Where the key belongs. There is no search if that is after all.
fn place_of(edits: &[Edit], wanted: &Wanted<'_>) -> usize
    requires { IsSorted edits.now }
    ensures place { result ≡ leading (is_below wanted.now) edits.now }
    ensures bound { result ≤ length edits.now }
{
    match edits.last() {
        Some(last) if last.is_below(wanted) => edits.len(),
        _ => count_below(edits, wanted),
    }
}

/// Whether the edit at a place, if there is one, has the key.
fn is_at(edits: &[Edit], place: usize, wanted: &Wanted<'_>) -> bool
    ensures { result ≡ ties_at wanted.now edits.now place }
{
    match edits.get(place) {
        None => false,
        Some(edit) => edit.order(wanted).is_eq(),
    }
}

/// Puts an edit in its place, in the place of one with its key.
fn put(edits: &mut Vec<Edit>, edit: Edit) -> Result<(), AllocError>
    requires { IsSorted edits.old.items }
    ensures ok { OnOk result (edits.new.items ≡ put key_cmp edit.0 edit.1 edits.old.items) }
    ensures err { OnErr result (edits.new.items ≡ edits.old.items) }
{
    let wanted = edit.wanted();
    let place = place_of(edits.as_slice(), &wanted);
    if is_at(edits.as_slice(), place, &wanted) {
        edits[place] = edit;
        return Ok(());
    }
    edits.insert(place, edit)?;
    Ok(())
}

/// Shares edits into the room of a list that has none: each row or key gets one more owner.
fn shared(room: Vec<Edit>, edits: &[Edit]) -> Result<Vec<Edit>, AllocError>
    requires { room.items ≡ [] }
    ensures { IfOk result (λ shared. shared.items ≡ edits.now) }
{
    let mut shared = room;
    shared.reserve(edits.len())?;
    for edit in edits {
        shared.push(edit.share()?)?;
    }
    Ok(shared)
}

impl Batch {
    /// No changes. Takes no memory.
    pub fn new(alloc: Global) -> Batch
        ensures { result ≡ empty }
    {
        Batch {
            alloc,
            edits: Vec::new(alloc),
        }
    }

    /// A batch without changes, with room for this many, whose memory it takes.
    pub fn with_capacity(alloc: Global, capacity: usize) -> Result<Batch, AllocError>
        ensures { IfOk result (λ batch. batch ≡ empty) }
    {
        Ok(Batch {
            alloc,
            edits: Vec::with_capacity(alloc, capacity)?,
        })
    }

    /// The changes of a delta, whose rows and keys have one owner more from then on. Linear where they stand in the order of their
    /// keys. Takes memory for the changes.
    pub fn of(alloc: Global, changes: &[Change]) -> Result<Batch, AllocError>
        ensures { IfOk result (λ batch. (s : State) → changed s batch ≡ with_changes s (changes_in changes.now)) }
    {
        Batch::of_looked_up(alloc, changes, &[], &FoundRows::none(alloc))
    }

    /// The changes of a delta, as by `of`, where rows of some keys were looked up: a row that is put at one of these is guessed to have
    /// its place where that one was found. Where the keys are in their order that takes a step more for each, and no more memory.
    pub fn of_looked_up(
        alloc: Global,
        changes: &[Change],
        keys: &[StateKey<'_>],
        found: &FoundRows<'_>,
    ) -> Result<Batch, AllocError>
        ensures { IfOk result (λ batch. (s : State) → changed s batch ≡ with_changes s (changes_in changes.now)) }
    {
        let mut batch = Batch::with_capacity(alloc, changes.len())?;
        let mut from = 0;
        for change in changes {
            from = batch.add_guessed(change, keys, found, from)?;
        }
        Ok(batch)
    }

    /// Makes a change, with a guess of its place by keys at or after a place. Returns where its key is looked for in them.
    fn add_guessed(
        &mut self,
        change: &Change,
        keys: &[StateKey<'_>],
        found: &FoundRows<'_>,
        from: usize,
    ) -> Result<usize, AllocError>
        ensures made { OnOk result ((s : State) → changed s self.new ≡ set_at (changed s self.old) (change_of change.now).0 (change_of change.now).1) }
    {
        let mut edit = Edit::new(change.share()?);
        let at = passed(keys, from, &edit);
        edit.guess(found.place(at));
        self.set_edit(edit)?;
        Ok(at)
    }

    fn set_edit(&mut self, edit: Edit) -> Result<(), AllocError>
        ensures ok { OnOk result (self.new ≡ insert self.old edit.0 edit.1) }
        ensures err { OnErr result (self.new ≡ self.old) }
        ensures made { OnOk result ((s : State) → changed s self.new ≡ set_at (changed s self.old) edit.0 edit.1) }
    {
        put(&mut self.edits, edit)
    }

    fn set(&mut self, change: Change) -> Result<(), AllocError>
        ensures ok { OnOk result (self.new ≡ insert self.old (change_of change).0 (change_of change).1) }
        ensures err { OnErr result (self.new ≡ self.old) }
        ensures made { OnOk result ((s : State) → changed s self.new ≡ set_at (changed s self.old) (change_of change).0 (change_of change).1) }
    {
        self.set_edit(Edit::new(change))
    }

    /// The key has this row from now on. Takes memory for the key, the row and the change.
    pub fn put(&mut self, namespace: Name, key: Key, row: Row) -> Result<(), AllocError>
        ensures ok { OnOk result (self.new ≡ insert self.old (namespace, key) (Some row)) }
        ensures err { OnErr result (self.new ≡ self.old) }
        ensures made { OnOk result ((s : State) → changed s self.new ≡ set_at (changed s self.old) (namespace, key) (Some row)) }
    {
        let key = KeptKey::copied(self.alloc, &namespace.lend(), &key.lend())?;
        let row = Shared::new(self.alloc, KeyedRow::new(key, row))?;
        self.set(Change::Put(row))
    }

    /// The key has no row from now on. Takes memory for the key and the change.
    pub fn remove(&mut self, namespace: Name, key: Key) -> Result<(), AllocError>
        ensures ok { OnOk result (self.new ≡ insert self.old (namespace, key) None) }
        ensures err { OnErr result (self.new ≡ self.old) }
        ensures made { OnOk result ((s : State) → changed s self.new ≡ set_at (changed s self.old) (namespace, key) None) }
    {
        let key = KeptKey::copied(self.alloc, &namespace.lend(), &key.lend())?;
        self.set(Change::Remove(key))
    }

    /// Makes a change of a delta, whose row or key has one owner more from then on. Takes memory for the change.
    pub fn add(&mut self, change: &Change) -> Result<(), AllocError>
        ensures ok { OnOk result (self.new ≡ insert self.old (change_of change.now).0 (change_of change.now).1) }
        ensures err { OnErr result (self.new ≡ self.old) }
        ensures made { OnOk result ((s : State) → changed s self.new ≡ set_at (changed s self.old) (change_of change.now).0 (change_of change.now).1) }
    {
        self.set(change.share()?)
    }

    /// The batch once more: its rows and keys get one more owner. Takes memory for the changes.
    pub fn share(&self) -> Result<Batch, AllocError>
        ensures { IfOk result (λ batch. batch ≡ self.now) }
    {
        self.share_in(Vec::new(self.alloc))
    }

    /// The batch once more, in the room of a list without edits.
    pub(crate) fn share_in(&self, room: Vec<Edit>) -> Result<Batch, AllocError>
        requires { room.items ≡ [] }
        ensures { IfOk result (λ batch. batch ≡ self.now) }
    {
        Ok(Batch {
            alloc: self.alloc,
            edits: shared(room, self.edits.as_slice())?,
        })
    }

    /// Its edits in the order of their keys.
    pub(crate) fn edits(&self) -> &[Edit]
        ensures edits { result.now ≡ entries self.now }
        ensures sorted { IsSorted result.now }
    {
        self.edits.as_slice()
    }

    /// Of edits in the order of their keys.
    pub(crate) fn of_edits(alloc: Global, edits: Vec<Edit>) -> Batch
        requires { IsSorted edits.items }
        ensures { result ≡ from_sorted edits.items }
    {
        Batch { alloc, edits }
    }

    /// Its edits in the order of their keys.
    pub(crate) fn into_edits(self) -> Vec<Edit>
        ensures edits { result.items ≡ entries self }
        ensures whole { from_sorted result.items ≡ self }
        ensures sorted { IsSorted result.items }
    {
        self.edits
    }
}
