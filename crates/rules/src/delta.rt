ghost use Rattle.std.specs.Prelude.{◌≡◌, IfOk};
ghost use Rattle.std.specs.Option.{option_copied};
ghost use Rattle.rules.specs.Delta.{change_of};

use crate::committed::CommittedBlock;
use crate::first_use::FirstUse;
use crate::history::HistoryEntry;
use crate::kept_entry::KeptEntry;
use crate::kept_key::KeptKey;
use crate::keyed_row::KeyedRow;
use crate::row::Row;
use policy::Policy;
use std::alloc::AllocError;
use transaction::TxId;
use values::{Items, KeyRef, Name, NameRef, Shared};

/// What a key has from now on.
#[derive(Drop)]
pub enum Change {
    Put(Shared<KeyedRow>),
    Remove(KeptKey),
}

impl Change {
    /// The namespace of the key.
    pub fn namespace(&self) -> NameRef<'_>
        ensures { result ≡ (change_of self.now).0.0 }
    {
        match self {
            Change::Put(row) => row.get().namespace(),
            Change::Remove(key) => key.namespace(),
        }
    }

    /// The key in its namespace.
    pub fn key(&self) -> KeyRef<'_>
        ensures { result ≡ (change_of self.now).0.1 }
    {
        match self {
            Change::Put(row) => row.get().key(),
            Change::Remove(key) => key.key(),
        }
    }

    /// The row, or none where the key is removed.
    pub fn row(&self) -> Option<&Row>
        ensures { option_copied result ≡ (change_of self.now).1 }
    {
        match self {
            Change::Put(row) => Some(row.get().row()),
            Change::Remove(_) => None,
        }
    }

    /// The change once more: its row or key gets one more owner. Takes no memory; only the 2^63rd owner is refused.
    pub fn share(&self) -> Result<Change, AllocError>
        ensures { IfOk result (λ shared. shared ≡ self.now) }
    {
        match self {
            Change::Put(row) => Ok(Change::Put(row.share()?)),
            Change::Remove(key) => Ok(Change::Remove(key.share()?)),
        }
    }
}

/// A history entry of a key.
#[derive(Debug, Drop)]
pub struct NewEntry {
    pub key: KeptKey,
    pub entry: HistoryEntry,
}

/// A use of an id, which counts where the id has none yet.
#[derive(Clone, Copy, Debug)]
pub struct NewUse {
    pub id: TxId,
    pub first_use: FirstUse,
}

/// The policy that a chaincode has from now on.
#[derive(Drop)]
pub struct NewDefinition {
    pub chaincode: Name,
    pub policy: Shared<Policy>,
}

/// What one block changes, as plain data. Each list goes in order; of a key's changes the last one stands.
#[derive(Drop)]
pub struct Delta {
    pub changes: Items<Change>,
    pub entries: Shared<Items<KeptEntry>>,
    pub uses: Shared<Items<NewUse>>,
    pub definitions: Items<NewDefinition>,
    pub block: Shared<CommittedBlock>,
}
