//! The history entries of a transaction.
ghost use Rattle.std.specs.Prelude.{◌≡◌, ◌++◌, map, IfOk, OnOk};
ghost use Rattle.rules.specs.Delta.{entries_in};
ghost use Rattle.rules.specs.History as history;

use rules::{HistoryEntry, KeptKey, NewEntry};
use std::alloc::{AllocError, Global};
use transaction::{NsSet, Tx, TxId, Version};
use values::{Part, Shared, Slice};

/// The value of a write, copied for all who keep it.
fn copy_value(alloc: Global, value: &Option<Slice<'_>>) -> Result<Option<Part>, AllocError>
    ensures { IfOk result (λ copied. copied ≡ value.now) }
{
    match value {
        None => Ok(None),
        Some(value) => Ok(Some(Part::copied(alloc, value.as_slice())?)),
    }
}

/// The history entry of a write or delete of a key, by the transaction of this place and id.
fn new_entry(
    alloc: Global,
    version: Version,
    id: TxId,
    key: KeptKey,
    value: Option<Part>,
) -> Result<Shared<NewEntry>, AllocError>
    ensures { IfOk result (λ e. e ≡ record { key = key; entry = record { version = version; id = id; value = value } }) }
{
    let entry = NewEntry {
        key,
        entry: HistoryEntry { version, id, value },
    };
    Shared::new(alloc, entry)
}

fn add_entries(
    alloc: Global,
    entries: &mut Vec<Shared<NewEntry>>,
    version: Version,
    tx: &Tx<'_>,
    set: &NsSet<'_>,
) -> Result<(), AllocError>
    ensures { OnOk result (entries_in entries.new.items ≡ entries_in entries.old.items ++ map (λ w. ((set.now.name, w.key), record { version = version; id = tx.now.id; value = w.value })) set.now.writes) }
{
    for write in set.writes.as_slice() {
        let value = copy_value(alloc, &write.value)?;
        let key = KeptKey::copied(alloc, &set.name, &write.key)?;
        entries.push(new_entry(alloc, version, tx.id, key, value)?)?;
    }
    Ok(())
}

/// Adds the entries of a valid transaction behind those that are there: one for each value write or delete, in its
/// order, with copies of the key and of the value. An `Err` may leave some of them there.
pub(crate) fn entries_of(
    alloc: Global,
    entries: &mut Vec<Shared<NewEntry>>,
    version: Version,
    tx: &Tx<'_>,
) -> Result<(), AllocError>
    ensures { OnOk result (entries_in entries.new.items ≡ entries_in entries.old.items ++ history.entries_of version tx.now) }
{
    for set in tx.namespaces.as_slice() {
        add_entries(alloc, entries, version, tx, set)?;
    }
    Ok(())
}
