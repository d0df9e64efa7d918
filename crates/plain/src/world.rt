ghost use Rattle.std.specs.Prelude.{◌≡◌, ◌++◌, ◌+◌, ◌≤◌, map, vec_len, vec_capacity, IfOk, OnOk, OnErr};
ghost use Rattle.std.specs.Option.{option_copied};
ghost use Rattle.std.specs.FinMap.{get, empty, find};
ghost use Rattle.values.specs.Order.{bytes_cmp};
ghost use Rattle.rules.specs.State.{State, with_changes};
ghost use Rattle.rules.specs.History.{entries_at};
ghost use Rattle.rules.specs.Delta.{changes_in, entries_in, uses_in, definitions_in};
ghost use Rattle.rules.specs.Definitions.{with_definitions};
ghost use Rattle.plain.specs.Entries.{entries_for};
ghost use Rattle.plain.specs.Held.{held_after, nothing_but};
ghost use Rattle.plain.specs.Keys.{key_of};

use crate::state_key::StateKey;
use policy::Definitions;
use rules::{Change, FirstUse, HistoryEntry, NewDefinition, NewEntry, NewUse, Row};
use std::alloc::{AllocError, Global};
use std::marker::Model;
use transaction::TxId;
use values::{Key, Name, Shared};

/// All changes, entries and uses of ids that blocks ever made, and the policies of chaincodes. A contract sees the state, the
/// history and the first uses that they make, and these policies.
#[derive(Drop)]
pub struct World {
    changes: Vec<Change>,
    entries: Vec<Shared<NewEntry>>,
    uses: Vec<NewUse>,
    definitions: Definitions,
}

impl Model for World {
    ghost use Rattle.plain.specs.Held.{Held, held_code};

    ghost Value = { Held };

    ghost coded = { held_code };

    ghost use Rattle.rules.specs.Delta.{changes_in, entries_in, uses_in};
    ghost use Rattle.plain.specs.Held.{made_of};

    ghost view = { λ w. made_of w.definitions (changes_in w.changes.items) (entries_in w.entries.items) (uses_in w.uses.items) };
}

/// The row of a key once the changes are made, where it is `before` without them.
pub(crate) fn row_after<'a>(
    before: Option<&'a Row>,
    changes: &'a [Change],
    wanted: &StateKey<'_>,
) -> Option<&'a Row>
    ensures { (s : State) → option_copied before.entry ≡ get s (key_of wanted.now) → option_copied result ≡ get (with_changes s (changes_in changes.now)) (key_of wanted.now) }
{
    let mut row = before;
    for change in changes {
        if wanted.is_changed(change) {
            row = change.row();
        }
    }
    row
}

/// The first of the uses of an id.
fn use_in(uses: &[NewUse], id: &TxId) -> Option<FirstUse>
    ensures { result ≡ find bytes_cmp id.now (uses_in uses.now) }
{
    for used in uses {
        if *id == used.id {
            return Some(used.first_use);
        }
    }
    None
}

/// Adds the entries of a key behind those that were found.
fn add_entries<'a>(
    found: &mut Vec<&'a HistoryEntry>,
    entries: &'a [Shared<NewEntry>],
    wanted: &StateKey<'_>,
) -> Result<(), AllocError>
    ensures { OnOk result (map (λ e. e.now) found.new.items ≡ map (λ e. e.now) found.old.items ++ entries_for (key_of wanted.now) entries.now) }
{
    for entry in entries {
        let entry = entry.get();
        if wanted.is_kept(&entry.key) {
            found.push(&entry.entry)?;
        }
    }
    Ok(())
}

/// Moves values behind others, for which there is room.
fn append_reserved<T: Drop>(all: &mut Vec<T>, mut more: Vec<T>)
    requires { vec_len all.old + vec_len more ≤ vec_capacity all.old }
    ensures { all.new.items ≡ all.old.items ++ more.items }
{
    let _ = all.append(&mut more);
}

/// A copy of the policies of chaincodes, with others in the place of some.
fn definitions_after(
    alloc: Global,
    definitions: &Definitions,
    more: &[NewDefinition],
) -> Result<Definitions, AllocError>
    ensures { IfOk result (λ after. after ≡ with_definitions definitions.now (definitions_in more.now)) }
{
    let mut after = definitions.copy(alloc)?;
    for new in more {
        after.set(&new.chaincode, new.policy.get().copy(alloc)?)?;
    }
    Ok(after)
}

impl World {
    /// The world before all blocks, where chaincodes have these policies. Takes no memory.
    pub fn new(alloc: Global, definitions: Definitions) -> World
        ensures { result ≡ nothing_but definitions }
    {
        World {
            changes: Vec::new(alloc),
            entries: Vec::new(alloc),
            uses: Vec::new(alloc),
            definitions,
        }
    }

    /// The policies of chaincodes, as the last block left them.
    pub fn definitions(&self) -> &Definitions
        ensures { result.now ≡ self.now.definitions }
    {
        &self.definitions
    }

    /// What the state has at a key. Linear in all changes that were ever made.
    pub fn row(&self, namespace: &Name, key: &Key) -> Option<&Row>
        ensures { option_copied result ≡ get self.now.state (namespace.now, key.now) }
    {
        self.row_at(&StateKey::lent(namespace, key))
    }

    pub(crate) fn row_at(&self, wanted: &StateKey<'_>) -> Option<&Row>
        ensures { option_copied result ≡ get self.now.state (key_of wanted.now) }
    {
        row_after(None, self.changes.as_slice(), wanted)
    }

    /// Where an id was used first. Linear in all ids.
    pub fn flag_of(&self, id: &TxId) -> Option<FirstUse>
        ensures { result ≡ get self.now.first_uses id.now }
    {
        use_in(self.uses.as_slice(), id)
    }

    /// The value writes and deletes of a key, the newest first. Linear in all that were ever made; memory for those of
    /// the key.
    pub fn history(
        &self,
        alloc: Global,
        namespace: &Name,
        key: &Key,
    ) -> Result<Vec<&HistoryEntry>, AllocError>
        ensures { IfOk result (λ entries. map (λ e. e.now) entries.items ≡ entries_at self.now.history (namespace.now, key.now)) }
    {
        let mut found = Vec::new(alloc);
        add_entries(
            &mut found,
            self.entries.as_slice(),
            &StateKey::lent(namespace, key),
        )?;
        found.reverse();
        Ok(found)
    }

    pub(crate) fn changes(&self) -> &[Change]
        ensures { self.now.state ≡ with_changes empty (changes_in result.now) }
    {
        self.changes.as_slice()
    }

    /// Adds what a block has given. An `Err` changes nothing.
    pub(crate) fn add(
        &mut self,
        alloc: Global,
        changes: Vec<Change>,
        entries: Vec<Shared<NewEntry>>,
        uses: Vec<NewUse>,
        definitions: &[NewDefinition],
    ) -> Result<(), AllocError>
        ensures ok { OnOk result (self.new ≡ held_after self.old (changes_in changes.items) (entries_in entries.items) (uses_in uses.items) (definitions_in definitions.now)) }
        ensures err { OnErr result (self.new ≡ self.old) }
    {
        let after = definitions_after(alloc, &self.definitions, definitions)?;
        self.changes.reserve(changes.len())?;
        self.entries.reserve(entries.len())?;
        self.uses.reserve(uses.len())?;
        // from here on nothing wants memory
        append_reserved(&mut self.changes, changes);
        append_reserved(&mut self.entries, entries);
        append_reserved(&mut self.uses, uses);
        self.definitions = after;
        Ok(())
    }
}
