//! What a block writes, transaction by transaction: the rows of its keys, and the history entries.
ghost use Rattle.std.specs.Prelude.{[], ◌≡◌, ◌<◌, ◌+◌, ◌++◌, ℕ, Option, None, Some, length, replicate, IfOk, OnOk, option_map, option_to_list, unwrap_or, slice_get};
ghost use Rattle.std.specs.Option.{option_copied};
ghost use Rattle.std.specs.List.Sorted.{IsStrictlySortedBy};
ghost use Rattle.rules.specs.declared.row.Row as as_row;
ghost use Rattle.rules.specs.State.{StateKey, State, key_cmp};
ghost use Rattle.rules.specs.Delta.{entries_in};
ghost use Rattle.rules.specs.Job.{version_of};
ghost use Rattle.rules.specs.Fold as fold;
ghost use Rattle.rules.specs.Fold.{running, final_state};
ghost use Rattle.key_chains.specs.Job.{IsOpened, keys_of};
ghost use Rattle.effects.specs.Entries.{entry_written, entries_written, MakeHistory};
ghost use Rattle.effects.specs.Rows.{ShowRows, AreRealRows, HaveKeys, change_of_row, row_in, rows_in};
ghost use Rattle.effects.specs.WrittenRow.{with_write, with_writes};

use crate::keeping::Keeping;
use crate::key_effects::{KeyEffect, key_effect};
use crate::writer::Writer;
use candidates::{OpenTx, WrittenKey, keys_have_one_order};
use key_chains::Job;
use rules::{Flag, KeptEntry, KeyedRow, Row};
use std::alloc::{AllocError, Global};
use transaction::{Tx, Version};
use values::Shared;

/// The row that the valid transactions so far leave at a key, `Some(None)` if they removed it; `None` if none of them
/// wrote the key, or if it has no row now as before the block.
pub(crate) type WrittenRow = Option<Option<Shared<KeyedRow>>>;

/// What the valid transactions of a block write.
#[derive(Drop)]
pub(crate) struct Written {
    /// The rows of the keys that the block writes, each at its key's place.
    pub(crate) rows: Vec<WrittenRow>,
    pub(crate) entries: Vec<KeptEntry>,
}

fn row_now<'r>(written: &'r WrittenRow, before: Option<&'r Row>) -> Option<&'r Row>
    ensures { option_copied result ≡ unwrap_or (row_in written.now) (option_copied before.entry) }
{
    match written {
        Some(Some(row)) => Some(row.get().row()),
        Some(None) => None,
        None => before,
    }
}

/// What a row is to the one before the block: no change, if there is none and was none.
fn change_of_row(before: Option<&Row>, row: Option<Shared<KeyedRow>>) -> WrittenRow
    ensures row { row_in result ≡ change_of_row (option_copied before.entry) (option_map (λ p. p.1) row) }
    ensures kept { (x : Option (StateKey × Row)) → result ≡ Some x → x ≡ row }
{
    match (before, &row) {
        (None, None) => None,
        _ => Some(row),
    }
}

/// Adds the entry, if there is one.
fn add_entry(entries: &mut Vec<KeptEntry>, entry: Option<KeptEntry>) -> Result<(), AllocError>
    ensures { OnOk result (entries_in entries.new.items ≡ entries_in entries.old.items ++ entries_in (option_to_list entry)) }
{
    if let Some(entry) = entry {
        entries.push(entry)?;
    }
    Ok(())
}

/// Makes what is written at the key of this number.
fn write_one(
    keeping: &mut Keeping<'_>,
    all: &mut Written,
    job: &Job<'_, '_>,
    writer: &Writer,
    number: u32,
    written: &WrittenKey<'_>,
) -> Result<(), AllocError>
    requires rising { IsStrictlySortedBy key_cmp (keys_of job.now) }
    requires place { slice_get (keys_of job.now) number ≡ Some written.now.key }
    requires count { length all.old.rows.items ≡ length (keys_of job.now) }
    ensures rows { OnOk result ((s : State) → ShowRows job.now (rows_in all.old.rows.items) s → ShowRows job.now (rows_in all.new.rows.items) (with_write writer.now.version s written.now)) }
    ensures real { OnOk result (AreRealRows job.now (rows_in all.old.rows.items) → AreRealRows job.now (rows_in all.new.rows.items)) }
    ensures keys { OnOk result (HaveKeys (keys_of job.now) all.old.rows.items → HaveKeys (keys_of job.now) all.new.rows.items) }
    ensures count { OnOk result (length all.new.rows.items ≡ length all.old.rows.items) }
    ensures entries { OnOk result (entries_in all.new.entries.items ≡ entries_in all.old.entries.items ++ entry_written writer.now.version writer.now.id written.now) }
{
    keeping.note(writer.version.tx, number, written);
    let before = job.row_of(number);
    let now = row_now(&all.rows[number as usize], before);
    let effect = key_effect(keeping, writer, number, written, now)?;
    let KeyEffect { row, entry } = effect;
    all.rows[number as usize] = change_of_row(before, row);
    add_entry(&mut all.entries, entry)?;
    Ok(())
}

/// The transaction of candidate i, as one that writes.
fn writer_of(
    keeping: &Keeping<'_>,
    job: &Job<'_, '_>,
    i: u32,
    tx: &Tx<'_>,
) -> Result<Writer, AllocError>
    ensures version { IfOk result (λ writer. writer.version ≡ version_of job.now i) }
    ensures id { IfOk result (λ writer. writer.id ≡ tx.now.id) }
{
    let version = Version {
        block: job.number(),
        tx: i,
    };
    Ok(Writer {
        version,
        id: keeping.id(i, tx)?,
    })
}

/// Makes all that candidate i writes.
fn write_all(
    keeping: &mut Keeping<'_>,
    all: &mut Written,
    job: &Job<'_, '_>,
    i: u32,
    open_tx: &OpenTx<'_>,
) -> Result<(), AllocError>
    requires rising { IsStrictlySortedBy key_cmp (keys_of job.now) }
    requires opened { IsOpened job.now i open_tx.now }
    requires count { length all.old.rows.items ≡ length (keys_of job.now) }
    ensures rows { OnOk result ((s : State) → ShowRows job.now (rows_in all.old.rows.items) s → ShowRows job.now (rows_in all.new.rows.items) (with_writes (version_of job.now i) s open_tx.now.written.items)) }
    ensures real { OnOk result (AreRealRows job.now (rows_in all.old.rows.items) → AreRealRows job.now (rows_in all.new.rows.items)) }
    ensures keys { OnOk result (HaveKeys (keys_of job.now) all.old.rows.items → HaveKeys (keys_of job.now) all.new.rows.items) }
    ensures count { OnOk result (length all.new.rows.items ≡ length all.old.rows.items) }
    ensures entries { OnOk result (entries_in all.new.entries.items ≡ entries_in all.old.entries.items ++ entries_written (version_of job.now i) open_tx.now.tx.id open_tx.now.written.items) }
{
    let writer = writer_of(keeping, job, i, &open_tx.tx)?;
    for (place, written) in open_tx.written.as_slice().iter().enumerate() {
        let number = job.key_number_of(i, place);
        write_one(keeping, all, job, &writer, number, written)?;
    }
    Ok(())
}

/// Takes candidate i, whose flag this is.
fn take(
    keeping: &mut Keeping<'_>,
    all: &mut Written,
    job: &Job<'_, '_>,
    i: u32,
    flag: Flag,
) -> Result<(), AllocError>
    requires place { i < length job.now.candidates }
    requires flag { flag ≡ fold.flag job.now i }
    requires count { length all.old.rows.items ≡ length (keys_of job.now) }
    ensures rows { OnOk result (ShowRows job.now (rows_in all.old.rows.items) (running job.now i).state → ShowRows job.now (rows_in all.new.rows.items) (running job.now (i + 1)).state) }
    ensures real { OnOk result (AreRealRows job.now (rows_in all.old.rows.items) → AreRealRows job.now (rows_in all.new.rows.items)) }
    ensures keys { OnOk result (HaveKeys (keys_of job.now) all.old.rows.items → HaveKeys (keys_of job.now) all.new.rows.items) }
    ensures count { OnOk result (length all.new.rows.items ≡ length all.old.rows.items) }
    ensures entries { OnOk result (MakeHistory job.now all.old.entries.items i → MakeHistory job.now all.new.entries.items (i + 1)) }
{
    if !flag.is_valid() {
        return Ok(());
    }
    keys_have_one_order();
    match job.open_tx(i) {
        None => Ok(()),
        Some(open_tx) => write_all(keeping, all, job, i, open_tx),
    }
}

/// Rows of this many keys that no transaction wrote.
fn unwritten(alloc: Global, count: usize) -> Result<Vec<WrittenRow>, AllocError>
    ensures { IfOk result (λ rows. rows.items ≡ replicate count None) }
{
    let mut rows = Vec::with_capacity(alloc, count)?;
    for _key in 0..count {
        rows.push(None)?;
    }
    Ok(rows)
}

/// Adds what all candidates of a job write, whose flags these are.
fn take_all(
    keeping: &mut Keeping<'_>,
    all: &mut Written,
    job: &Job<'_, '_>,
    flags: &[Flag],
) -> Result<(), AllocError>
    requires flags { flags.now ≡ fold.flags job.now }
    requires unwritten { all.old.rows.items ≡ replicate (length (keys_of job.now)) None }
    requires none { all.old.entries.items ≡ [] }
    ensures rows { OnOk result (ShowRows job.now (rows_in all.new.rows.items) (final_state job.now)) }
    ensures real { OnOk result (AreRealRows job.now (rows_in all.new.rows.items)) }
    ensures keys { OnOk result (HaveKeys (keys_of job.now) all.new.rows.items) }
    ensures count { OnOk result (length all.new.rows.items ≡ length (keys_of job.now)) }
    ensures entries { OnOk result (MakeHistory job.now all.new.entries.items (length job.now.candidates)) }
{
    for i in 0..job.len() {
        take(keeping, all, job, i, flags[i as usize])?;
    }
    Ok(())
}

/// What all candidates of a job write, whose flags these are: the rows after them, and the history entries. Linear in
/// what the valid ones write.
pub(crate) fn write_block(
    keeping: &mut Keeping<'_>,
    job: &Job<'_, '_>,
    flags: &[Flag],
) -> Result<Written, AllocError>
    requires { flags.now ≡ fold.flags job.now }
    ensures rows { IfOk result (λ w. ShowRows job.now (rows_in w.rows.items) (final_state job.now)) }
    ensures real { IfOk result (λ w. AreRealRows job.now (rows_in w.rows.items)) }
    ensures keys { IfOk result (λ w. HaveKeys (keys_of job.now) w.rows.items) }
    ensures count { IfOk result (λ w. length w.rows.items ≡ length (keys_of job.now)) }
    ensures entries { IfOk result (λ w. MakeHistory job.now w.entries.items (length job.now.candidates)) }
{
    let count = job.keys().len();
    let rows = unwritten(keeping.alloc(), count)?;
    let entries = Vec::with_capacity(keeping.alloc(), count)?;
    let mut all = Written { rows, entries };
    take_all(keeping, &mut all, job, flags)?;
    // worlds keep the list, which is shorter if transactions are invalid
    all.entries.shrink_to_fit();
    Ok(all)
}
