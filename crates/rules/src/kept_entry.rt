ghost use Rattle.std.specs.Prelude.{◌≡◌, IfOk, Some, None};

use crate::history::HistoryEntry;
use crate::kept_id::{KeptId, id_at};
use crate::kept_key::KeptKey;
use crate::keyed_row::KeyedRow;
use crate::row::Row;
use std::alloc::{AllocError, Global};
use std::marker::Model;
use transaction::Version;
use values::{Bytes, KeyRef, NameRef, Part, Shared};

/// A history entry of a key, as deltas and histories keep it: that of a value write shares the row that it left, that of a delete has one
/// of its own, of which the value doesn't count. A contract sees the entry with its key.
#[derive(Drop)]
pub struct KeptEntry {
    row: Shared<KeyedRow>,
    // where the id stands: not a `KeptId`, beside which the last field would have no room in 24 bytes
    id_whole: Shared<Bytes>,
    id_start: u32,
    is_delete: bool,
}

impl Model for KeptEntry {
    ghost use Rattle.rules.specs.contracts.delta.NewEntry as new_entry;
    ghost use Rattle.rules.specs.declared.delta.NewEntry.{NewEntry};
    ghost use Rattle.rules.specs.KeptEntry.{entry_of, id_in};

    ghost Value = { NewEntry };

    ghost coded = { (new_entry.the_row).coded };

    ghost use Rattle.std.specs.Prelude.{◌≤◌, ◌+◌, length};

    ghost view = { λ e. entry_of e.row (id_in e.id_whole e.id_start) e.is_delete };

    ghost invariant = { λ e. e.id_start + 64 ≤ length e.id_whole };
}

impl KeptEntry {
    /// That of a value write, by the transaction of this id, which left this row.
    pub fn written(row: Shared<KeyedRow>, id: KeptId) -> KeptEntry
        ensures { result ≡ record { key = row.0; entry = record { version = row.1.version; id = id; value = Some row.1.value } } }
    {
        let (id_whole, id_start) = id.into_place();
        KeptEntry {
            row,
            id_whole,
            id_start,
            is_delete: false,
        }
    }

    /// That of a delete. Takes memory for what it shares.
    pub fn deleted(
        alloc: Global,
        key: KeptKey,
        version: Version,
        id: KeptId,
    ) -> Result<KeptEntry, AllocError>
        ensures { IfOk result (λ e. e ≡ record { key = key; entry = record { version = version; id = id; value = None } }) }
    {
        let (id_whole, id_start) = id.into_place();
        let value = match Part::found(&id_whole, 0, &[])? {
            Some(nothing) => nothing,
            None => Part::copied(alloc, &[])?,
        };
        let row = Row {
            value,
            version,
            policy: None,
        };
        Ok(KeptEntry {
            row: Shared::new(alloc, KeyedRow::new(key, row))?,
            id_whole,
            id_start,
            is_delete: true,
        })
    }

    /// The namespace of its key.
    pub fn namespace(&self) -> NameRef<'_>
        ensures { result ≡ self.now.key.0 }
    {
        self.row.get().namespace()
    }

    /// Its key in the namespace.
    pub fn key(&self) -> KeyRef<'_>
        ensures { result ≡ self.now.key.1 }
    {
        self.row.get().key()
    }

    /// The entry, whose value gets one more owner. Takes no memory, and is refused only to the 2^63rd owner.
    pub fn entry(&self) -> Result<HistoryEntry, AllocError>
        ensures { IfOk result (λ entry. entry ≡ self.now.entry) }
    {
        let row = self.row.get().row();
        let value = if self.is_delete {
            None
        } else {
            Some(row.value.share()?)
        };
        Ok(HistoryEntry {
            version: row.version,
            id: id_at(self.id_whole.get(), self.id_start),
            value,
        })
    }

    /// The entry once more: all that it keeps gets one more owner. Takes no memory; only the 2^63rd owner is refused.
    pub fn share(&self) -> Result<KeptEntry, AllocError>
        ensures { IfOk result (λ shared. shared ≡ self.now) }
    {
        Ok(KeptEntry {
            row: self.row.share()?,
            id_whole: self.id_whole.share()?,
            id_start: self.id_start,
            is_delete: self.is_delete,
        })
    }
}
