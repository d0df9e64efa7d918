//! The changes of the state to the rows that a block leaves.
ghost use Rattle.std.specs.Prelude.{◌≡◌, ◌++◌, IfOk, OnOk};
ghost use Rattle.rules.specs.Delta.{change_of, changes_in};
ghost use Rattle.effects.specs.Rows.{change_to, kept_change_at, kept_changes_at};

use crate::keeping::Keeping;
use crate::writing::WrittenRow;
use candidates::StateKey;
use rules::{Change, KeyedRow};
use std::alloc::{AllocError, Global};
use values::Shared;

fn key_change(
    keeping: &Keeping<'_>,
    number: u32,
    key: &StateKey<'_>,
    row: Option<Shared<KeyedRow>>,
) -> Result<Change, AllocError>
    ensures { IfOk result (λ c. change_of c ≡ change_to key.now row) }
{
    match row {
        Some(row) => Ok(Change::Put(row)),
        None => Ok(Change::Remove(keeping.key(number, key)?)),
    }
}

fn add_change(
    keeping: &Keeping<'_>,
    changes: &mut Vec<Change>,
    number: u32,
    key: &StateKey<'_>,
    written: WrittenRow,
) -> Result<(), AllocError>
    ensures { OnOk result (changes_in changes.new.items ≡ changes_in changes.old.items ++ kept_change_at key.now written) }
{
    if let Some(row) = written {
        changes.push(key_change(keeping, number, key, row)?)?;
    }
    Ok(())
}

/// The changes to these rows, each at its key's place.
pub(crate) fn changes_to_rows(
    alloc: Global,
    keeping: &Keeping<'_>,
    keys: &[StateKey<'_>],
    rows: Vec<WrittenRow>,
) -> Result<Vec<Change>, AllocError>
    ensures { IfOk result (λ changes. changes_in changes.items ≡ kept_changes_at keys.now rows.items) }
{
    let mut changes = Vec::with_capacity(alloc, keys.len())?;
    let mut number = 0u32;
    for (row, key) in rows.into_iter().zip(keys) {
        add_change(keeping, &mut changes, number, key, row)?;
        number = number.wrapping_add(1);
    }
    Ok(changes)
}
