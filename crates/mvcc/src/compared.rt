//! The keys that may have a version in the compared part of a range.
ghost use Rattle.std.specs.Prelude.{◌≡◌, ◌++◌, ◌||◌, ℕ, List, true, map, IsSome, IfOk, OnOk};
ghost use Rattle.std.specs.List.{list_any};
ghost use Rattle.std.specs.Str.{bytes_eq};
ghost use Rattle.rules.specs.State.{version_in};
ghost use Rattle.rules.specs.Ranges.{is_compared};
ghost use Rattle.rules.specs.Assignment.{Assignment, state_under};
ghost use Rattle.mvcc.specs.RangeChecks.{StopCompared};

use crate::bounds::is_compared;
use key_chains::{Job, StateKey};
use state_db::Rows;
use std::alloc::{AllocError, Global};
use transaction::Range;
use values::{KeyRef, NameRef};

/// The keys of rows in the range's bounds that are compared. Stops at the first that isn't, since none behind it is.
fn compared_rows<'a>(
    alloc: Global,
    range: &Range<'_>,
    rows: Rows<'a>,
) -> Result<Vec<KeyRef<'a>>, AllocError>
    requires stop { StopCompared range.now (map (λ e. e.0.1) rows) }
    ensures { IfOk result (λ keys. (q : List ℕ) → is_compared range.now q ≡ true → list_any (bytes_eq q) (map (λ e. e.0.1) rows.entry) ≡ true → list_any (bytes_eq q) keys.items ≡ true) }
{
    let mut keys = Vec::new(alloc);
    for row in rows {
        let key = row.key();
        if !is_compared(range, &key) {
            return Ok(keys);
        }
        keys.push(key)?;
    }
    Ok(keys)
}

fn add_written<'a>(keys: &mut Vec<KeyRef<'a>>, written: &[StateKey<'a>]) -> Result<(), AllocError>
    ensures { OnOk result (keys.new.items ≡ keys.old.items ++ map (λ k. k.1) written.now) }
{
    for key in written {
        keys.push(key.key())?;
    }
    Ok(())
}

/// Keys of a namespace among which are all of the compared part of a range that have a version before any candidate:
/// those of the rows before the block there, and those in the range's bounds that the block writes. Linear in them.
pub fn compared_keys<'a>(
    alloc: Global,
    job: &'a Job<'a, 'a>,
    namespace: &NameRef<'a>,
    range: &Range<'a>,
) -> Result<Vec<KeyRef<'a>>, AllocError>
    ensures { IfOk result (λ keys. (called : Assignment) (i : ℕ) (q : List ℕ) → is_compared range.now q ≡ true
        → IsSome (version_in (state_under job.entry.now called i) (namespace.now, q)) → list_any (bytes_eq q) keys.items ≡ true) }
{
    let rows = job.rows_between(namespace, &range.start, &range.end);
    let mut keys = compared_rows(alloc, range, rows)?;
    add_written(
        &mut keys,
        job.keys_between(namespace, &range.start, &range.end),
    )?;
    Ok(keys)
}
