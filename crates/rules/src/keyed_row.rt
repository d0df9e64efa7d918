ghost use Rattle.std.specs.Prelude.{◌≡◌};

use crate::kept_key::KeptKey;
use crate::row::Row;
use std::marker::Model;
use values::{KeyRef, NameRef};

/// A row with its key, as states, batches and deltas share it. A contract sees the pair of both.
#[derive(Drop)]
pub struct KeyedRow {
    key: KeptKey,
    row: Row,
}

impl Model for KeyedRow {
    ghost use Rattle.rules.specs.declared.row.Row.{Row};
    ghost use Rattle.rules.specs.State.{StateKey};
    ghost use Rattle.rules.specs.Code.{keyed_row_code};

    ghost Value = { StateKey × Row };

    ghost coded = { keyed_row_code };

    ghost view = { λ r. (r.key, r.row) };
}

impl KeyedRow {
    /// A row at its key. Takes no memory.
    pub fn new(key: KeptKey, row: Row) -> KeyedRow
        ensures { result ≡ (key, row) }
    {
        KeyedRow { key, row }
    }

    /// Its namespace and key, as they are kept.
    pub fn kept_key(&self) -> &KeptKey
        ensures { result.now ≡ self.now.0 }
    {
        &self.key
    }

    /// The namespace of its key.
    pub fn namespace(&self) -> NameRef<'_>
        ensures { result ≡ self.now.0.0 }
    {
        self.key.namespace()
    }

    /// Its key in the namespace.
    pub fn key(&self) -> KeyRef<'_>
        ensures { result ≡ self.now.0.1 }
    {
        self.key.key()
    }

    /// The row alone.
    pub fn row(&self) -> &Row
        ensures { result.now ≡ self.now.1 }
    {
        &self.row
    }
}
