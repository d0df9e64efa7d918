//! The keys that made most transactions invalid.
ghost use Rattle.std.specs.Prelude.{◌≡◌, ◌++◌, ℕ, List, OnOk, IfOk, filter};
ghost use Rattle.std.specs.List.Sorted.{IsStrictlySortedBy};
ghost use Rattle.std.specs.Map.{keys_of};
ghost use Rattle.rules.specs.State.{key_cmp};
ghost use Rattle.conflicts.specs.declared.conflict.Conflict.{Conflict};
ghost use Rattle.conflicts.specs.Ranking.{IsRanking, AreFirst};
ghost use Rattle.conflicts.specs.Tally.{CountsKeys, is_line, line_to_list};

use crate::conflict_key::ConflictKey;
use crate::key_counts::KeyCounts;
use crate::line::Line;
use std::alloc::{AllocError, Global};
use std::collections::BTreeMap;

// If the key has a conflict.
fn push_line(lines: &mut Vec<Line>, key: &ConflictKey, counts: &KeyCounts) -> Result<(), AllocError>
    ensures { OnOk result (lines.new.items ≡ lines.old.items ++ line_to_list (key.now, counts.now)) }
{
    if counts.total() > 0 {
        lines.push(Line::new(key.share()?, *counts))?;
    }
    Ok(())
}

// The lines of keys that have conflicts, by the keys' order.
fn lines_of(
    alloc: Global,
    table: &BTreeMap<ConflictKey, KeyCounts>,
) -> Result<Vec<Line>, AllocError>
    ensures lines { IfOk result (λ lines. lines.items ≡ filter is_line table.now.entries) }
    ensures ordered { IsStrictlySortedBy key_cmp (keys_of table.now.entries) }
{
    let mut lines = Vec::new(alloc);
    for (key, counts) in table {
        push_line(&mut lines, key, counts)?;
    }
    Ok(lines)
}

/// The ranking of these keys.
pub(crate) fn ranked_lines(
    alloc: Global,
    table: &BTreeMap<ConflictKey, KeyCounts>,
) -> Result<Vec<Line>, AllocError>
    ensures { IfOk result (λ lines. (conflicts : List Conflict) → CountsKeys conflicts table.now.entries → IsRanking conflicts lines.items) }
{
    let mut lines = lines_of(alloc, table)?;
    lines.sort_unstable();
    Ok(lines)
}

/// The first n lines of the ranking of these keys.
pub(crate) fn first_lines(
    alloc: Global,
    table: &BTreeMap<ConflictKey, KeyCounts>,
    n: usize,
) -> Result<Vec<Line>, AllocError>
    ensures { IfOk result (λ lines. (conflicts : List Conflict) → CountsKeys conflicts table.now.entries → AreFirst conflicts n lines.items) }
{
    let mut lines = ranked_lines(alloc, table)?;
    lines.truncate(n);
    Ok(lines)
}
