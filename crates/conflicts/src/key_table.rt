//! What each key made invalid, by the order of keys.
ghost use Rattle.std.specs.Prelude.{◌≡◌, ◌≤◌, ◌<◌, ◌+◌, ◌++◌, ◌∷◌, [], ◌^◌, ℕ, List, IsTrue, OnOk, OnErr, length};
ghost use Rattle.std.specs.List.{All};
ghost use Rattle.reasons.specs.declared.reason.Reason.{Reason};
ghost use Rattle.rules.specs.State.{StateKey};
ghost use Rattle.conflicts.specs.Conflict.{conflicts_of};
ghost use Rattle.conflicts.specs.declared.conflict.Conflict.{Conflict};
ghost use Rattle.conflicts.specs.Tally.{counts_in, has_line, IsWithin, CountsKeys};

use crate::conflict::{Conflict, conflicts_of};
use crate::conflict_key::ConflictKey;
use crate::key_counts::KeyCounts;
use reasons::Reason;
use std::alloc::{AllocError, Global};
use std::collections::BTreeMap;

/// Gives a key a line, of no counts if it had none. An `Err` leaves each key's counts unchanged.
fn give_line(
    lines: &mut BTreeMap<ConflictKey, KeyCounts>,
    key: &ConflictKey,
) -> Result<(), AllocError>
    ensures counts { (k : StateKey) → counts_in lines.new.entries k ≡ counts_in lines.old.entries k }
    ensures kept { (k : StateKey) → IsTrue (has_line lines.old.entries k) → IsTrue (has_line lines.new.entries k) }
    ensures ok { OnOk result (IsTrue (has_line lines.new.entries key.now)) }
{
    if !lines.contains_key(key) {
        lines.insert(key.share()?, KeyCounts::none())?;
    }
    Ok(())
}

/// Gives each key of these conflicts a line. An `Err` leaves each key's counts unchanged.
pub(crate) fn give_lines(
    lines: &mut BTreeMap<ConflictKey, KeyCounts>,
    conflicts: &[Conflict],
) -> Result<(), AllocError>
    ensures counts { (k : StateKey) → counts_in lines.new.entries k ≡ counts_in lines.old.entries k }
    ensures ok { OnOk result (All (λ c. IsTrue (has_line lines.new.entries c.key)) conflicts.now) }
{
    for conflict in conflicts {
        give_line(lines, &conflict.key)?;
    }
    Ok(())
}

/// Counts a conflict at the line of its key. Takes no memory.
fn count(lines: &mut BTreeMap<ConflictKey, KeyCounts>, conflict: &Conflict, total: u64)
    requires line { IsTrue (has_line lines.old.entries conflict.now.key) }
    requires within { IsWithin total lines.old.entries }
    requires small { total + 1 < 2 ^ 64 }
    ensures counts { (before : List Conflict) → CountsKeys before lines.old.entries → CountsKeys (before ++ conflict.now ∷ []) lines.new.entries }
    ensures kept { (k : StateKey) → IsTrue (has_line lines.old.entries k) → IsTrue (has_line lines.new.entries k) }
    ensures within { IsWithin (total + 1) lines.new.entries }
{
    if let Some(counts) = lines.get_mut(&conflict.key) {
        *counts = counts.with(conflict.kind, conflict.in_block);
    }
}

/// Counts conflicts, whose keys have lines, if at most `total` were counted before. Takes no memory.
pub(crate) fn count_all(
    lines: &mut BTreeMap<ConflictKey, KeyCounts>,
    conflicts: &[Conflict],
    total: u64,
)
    requires lines { All (λ c. IsTrue (has_line lines.old.entries c.key)) conflicts.now }
    requires within { IsWithin total lines.old.entries }
    requires small { total + length conflicts.now < 2 ^ 64 }
    ensures counts { (before : List Conflict) → CountsKeys before lines.old.entries → CountsKeys (before ++ conflicts.now) lines.new.entries }
    ensures within { IsWithin (total + length conflicts.now) lines.new.entries }
{
    let mut total = total;
    for conflict in conflicts {
        count(lines, conflict, total);
        total += 1;
    }
}

/// Counts what made transactions with these reasons invalid, if at most `total` were counted before. An `Err` leaves
/// each key's counts unchanged.
pub(crate) fn count_keys(
    alloc: Global,
    lines: &mut BTreeMap<ConflictKey, KeyCounts>,
    reasons: &[Reason],
    total: u64,
) -> Result<(), AllocError>
    requires within { IsWithin total lines.old.entries }
    requires small { total + length reasons.now < 2 ^ 64 }
    ensures ok { OnOk result ((before : List Reason) → CountsKeys (conflicts_of before) lines.old.entries → CountsKeys (conflicts_of (before ++ reasons.now)) lines.new.entries) }
    ensures err { OnErr result ((k : StateKey) → counts_in lines.new.entries k ≡ counts_in lines.old.entries k) }
    ensures within { OnOk result (IsWithin (total + length reasons.now) lines.new.entries) }
{
    let conflicts = conflicts_of(alloc, reasons)?;
    let all = conflicts.as_slice();
    give_lines(lines, all)?;
    count_all(lines, all, total);
    Ok(())
}
