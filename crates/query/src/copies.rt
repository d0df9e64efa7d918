//! Copies for who asked: what is large gets one owner more and isn't copied.
ghost use Rattle.std.specs.Prelude.{◌≡◌, map, IfOk};
ghost use Rattle.std.specs.Option.{option_copied};

use history_index::Entries;
use rules::{CommittedBlock, HistoryEntry, KeyedRow, Row, share_policy};
use std::alloc::{AllocError, Global};
use values::Items;

fn copied_row(keyed: &KeyedRow) -> Result<KeyedRow, AllocError>
    ensures { IfOk result (λ copied. copied ≡ keyed.now) }
{
    let row = keyed.row();
    let shared = Row {
        value: row.value.share()?,
        version: row.version,
        policy: share_policy(&row.policy)?,
    };
    Ok(KeyedRow::new(keyed.kept_key().share()?, shared))
}

/// The rows, each with one owner more for its key, value and policy. Linear in their number; memory for the list.
pub(crate) fn copied_rows(alloc: Global, rows: &[&KeyedRow]) -> Result<Items<KeyedRow>, AllocError>
    ensures { IfOk result (λ copied. copied ≡ map (λ row. row.now) rows.now) }
{
    let mut copied = Vec::with_capacity(alloc, rows.len())?;
    for row in rows {
        copied.push(copied_row(row)?)?;
    }
    Ok(Items::from_vec(copied))
}

/// The entries of a history. Linear in their number; memory for the list.
pub(crate) fn copied_entries(
    alloc: Global,
    entries: Entries<'_>,
) -> Result<Items<HistoryEntry>, AllocError>
    ensures { IfOk result (λ copied. copied ≡ entries.entry) }
{
    let mut copied = Vec::new(alloc);
    for entry in entries {
        copied.push(entry.entry()?)?;
    }
    Ok(Items::from_vec(copied))
}

/// The block, with its bytes shared and its flags copied. Linear in its transactions.
pub(crate) fn copied_block(
    alloc: Global,
    block: Option<&CommittedBlock>,
) -> Result<Option<CommittedBlock>, AllocError>
    ensures { IfOk result (λ copied. copied ≡ option_copied block.entry) }
{
    match block {
        None => Ok(None),
        Some(block) => Ok(Some(CommittedBlock {
            bytes: block.bytes.share()?,
            header_hash: block.header_hash,
            commit_hash: block.commit_hash,
            version: block.version,
            flags: block.flags.copy(alloc)?,
        })),
    }
}
