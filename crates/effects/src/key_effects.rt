//! The effect of a transaction on a key that it writes: the key's row, and its history entry, which share the row.
ghost use Rattle.std.specs.Prelude.{◌≡◌, None, Some, IfOk, option_map, option_to_list};
ghost use Rattle.std.specs.Option.{option_copied};
ghost use Rattle.rules.specs.Delta.{entries_in};
ghost use Rattle.effects.specs.Entries.{entry_at, entry_written};
ghost use Rattle.effects.specs.Rows.{HasKey};
ghost use Rattle.effects.specs.WrittenRow.{row_by_parts, row_written};

use crate::keeping::Keeping;
use crate::writer::Writer;
use crate::written_row::{policy_beside, row_beside};
use candidates::WrittenKey;
use rules::{KeptEntry, KeptId, KeptKey, KeyedRow, Row};
use std::alloc::{AllocError, Global};
use values::Shared;

/// The row that a key has after a transaction wrote it, and the history entry of that write.
#[derive(Drop)]
pub(crate) struct KeyEffect {
    pub(crate) row: Option<Shared<KeyedRow>>,
    pub(crate) entry: Option<KeptEntry>,
}

/// Of a value write that leaves this row.
fn effect_of_value(
    alloc: Global,
    id: &KeptId,
    key: KeptKey,
    row: Row,
) -> Result<KeyEffect, AllocError>
    ensures row { IfOk result (λ effect. effect.row ≡ Some (key, row)) }
    ensures entry { IfOk result (λ effect. entries_in (option_to_list effect.entry) ≡ entry_at row.version id.now key (Some (Some row.value))) }
{
    let row = Shared::new(alloc, KeyedRow::new(key, row))?;
    let entry = KeptEntry::written(row.share()?, id.share()?);
    Ok(KeyEffect {
        row: Some(row),
        entry: Some(entry),
    })
}

/// Of a delete.
fn effect_of_delete(alloc: Global, writer: &Writer, key: KeptKey) -> Result<KeyEffect, AllocError>
    ensures row { IfOk result (λ effect. effect.row ≡ None) }
    ensures entry { IfOk result (λ effect. entries_in (option_to_list effect.entry) ≡ entry_at writer.now.version writer.now.id key (Some None)) }
{
    let entry = KeptEntry::deleted(alloc, key, writer.version, writer.id.share()?)?;
    Ok(KeyEffect {
        row: None,
        entry: Some(entry),
    })
}

/// If the value isn't written, and this is the row.
fn effect_of_policy(
    keeping: &Keeping<'_>,
    number: u32,
    written: &WrittenKey<'_>,
    row: Option<Row>,
) -> Result<KeyEffect, AllocError>
    ensures row { IfOk result (λ effect. effect.row ≡ option_map (λ r. (written.now.key, r)) row) }
    ensures entry { IfOk result (λ effect. effect.entry ≡ None) }
{
    let row = match row {
        None => None,
        Some(row) => {
            let key = keeping.key(number, &written.key)?;
            Some(Shared::new(keeping.alloc(), KeyedRow::new(key, row))?)
        }
    };
    Ok(KeyEffect { row, entry: None })
}

/// Of what is written at the key of this number, which now has this row.
pub(crate) fn key_effect(
    keeping: &Keeping<'_>,
    writer: &Writer,
    number: u32,
    written: &WrittenKey<'_>,
    now: Option<&Row>,
) -> Result<KeyEffect, AllocError>
    ensures row { IfOk result (λ effect. option_map (λ p. p.1) effect.row ≡ row_written writer.now.version written.now (option_copied now.entry)) }
    ensures key { IfOk result (λ effect. HasKey written.now.key effect.row) }
    ensures entry { IfOk result (λ effect. entries_in (option_to_list effect.entry) ≡ entry_written writer.now.version writer.now.id written.now) }
{
    match &written.value {
        Some(Some(value)) => {
            let row = Row {
                value: keeping.value(number, value)?,
                version: writer.version,
                policy: policy_beside(&written.policy, now)?,
            };
            let key = keeping.key(number, &written.key)?;
            effect_of_value(keeping.alloc(), &writer.id, key, row)
        }
        Some(None) => effect_of_delete(keeping.alloc(), writer, keeping.key(number, &written.key)?),
        None => {
            let row = row_beside(writer.version, &written.policy, now)?;
            effect_of_policy(keeping, number, written, row)
        }
    }
}
