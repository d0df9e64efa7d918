//! What made transactions invalid: by key, and by the principal that is missing.
ghost use Rattle.std.specs.Prelude.{◌≡◌, ◌<◌, ◌+◌, ◌++◌, ◌^◌, List, IsTrue, IfOk, OnOk, OnErr, length};
ghost use Rattle.std.specs.List.{All};
ghost use Rattle.reasons.specs.declared.reason.Reason.{Reason};
ghost use Rattle.rules.specs.State.{StateKey};
ghost use Rattle.conflicts.specs.Conflict.{conflicts_of};
ghost use Rattle.conflicts.specs.Lack.{lacks_of};
ghost use Rattle.conflicts.specs.Tally.{counts_in, has_line, IsWithin, CountsKeys};

use crate::conflict::Conflict;
use crate::conflict_key::ConflictKey;
use crate::key_counts::KeyCounts;
use crate::key_table::{count_all, count_keys, give_lines};
use crate::lack::lacks_of;
use reasons::Reason;
use std::alloc::{AllocError, Global};
use std::collections::BTreeMap;

/// The endorsements that transactions with these reasons are missing, each with a line. Leaves each line's counts
/// unchanged.
fn found_lacks(
    alloc: Global,
    lacks: &mut BTreeMap<ConflictKey, KeyCounts>,
    reasons: &[Reason],
) -> Result<Vec<Conflict>, AllocError>
    ensures found { IfOk result (λ found. found.items ≡ lacks_of reasons.now) }
    ensures lines { IfOk result (λ found. All (λ c. IsTrue (has_line lacks.new.entries c.key)) found.items) }
    ensures counts { (k : StateKey) → counts_in lacks.new.entries k ≡ counts_in lacks.old.entries k }
{
    let found = lacks_of(alloc, reasons)?;
    give_lines(lacks, found.as_slice())?;
    Ok(found)
}

/// Counts what made transactions with these reasons invalid, if at most `total` were counted before. An `Err` leaves
/// all counts unchanged.
pub(crate) fn count_tables(
    alloc: Global,
    keys: &mut BTreeMap<ConflictKey, KeyCounts>,
    lacks: &mut BTreeMap<ConflictKey, KeyCounts>,
    reasons: &[Reason],
    total: u64,
) -> Result<(), AllocError>
    requires keys_within { IsWithin total keys.old.entries }
    requires lacks_within { IsWithin total lacks.old.entries }
    requires small { total + length reasons.now < 2 ^ 64 }
    ensures keys { OnOk result ((before : List Reason) → CountsKeys (conflicts_of before) keys.old.entries → CountsKeys (conflicts_of (before ++ reasons.now)) keys.new.entries) }
    ensures lacks { OnOk result ((before : List Reason) → CountsKeys (lacks_of before) lacks.old.entries → CountsKeys (lacks_of (before ++ reasons.now)) lacks.new.entries) }
    ensures keys_err { OnErr result ((k : StateKey) → counts_in keys.new.entries k ≡ counts_in keys.old.entries k) }
    ensures lacks_err { OnErr result ((k : StateKey) → counts_in lacks.new.entries k ≡ counts_in lacks.old.entries k) }
    ensures keys_most { OnOk result (IsWithin (total + length reasons.now) keys.new.entries) }
    ensures lacks_most { OnOk result (IsWithin (total + length reasons.now) lacks.new.entries) }
{
    let found = found_lacks(alloc, lacks, reasons)?;
    count_keys(alloc, keys, reasons, total)?;
    let all = found.as_slice();
    count_all(lacks, all, total);
    Ok(())
}
