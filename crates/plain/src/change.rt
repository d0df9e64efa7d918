ghost use Rattle.std.specs.Prelude.{◌≡◌, IfOk};
ghost use Rattle.rules.specs.Delta.{change_of};

use rules::{Change, KeptKey, KeyedRow, Row};
use std::alloc::{AllocError, Global};
use values::Shared;

/// The change of a key to a row, or to none. Takes memory for a row alone.
pub(crate) fn change_to(alloc: Global, key: KeptKey, row: Option<Row>) -> Result<Change, AllocError>
    ensures { IfOk result (λ c. change_of c ≡ (key, row)) }
{
    match row {
        None => Ok(Change::Remove(key)),
        Some(row) => Ok(Change::Put(Shared::new(alloc, KeyedRow::new(key, row))?)),
    }
}
