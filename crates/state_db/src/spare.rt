//! Pages in stock, for those that are split.
ghost use Rattle.std.specs.Prelude.{◌≡◌, ◌≤◌, length, OnOk};
ghost use Rattle.state_db.specs.Need.{added, splits, need, AreOpen, AreEmpty};
ghost use Rattle.state_db.specs.Search.{IsSorted};

use crate::directory::home_from;
use crate::edit::Edit;
use crate::page::{MAX_ROWS, Page};
use std::alloc::{AllocError, Global};

/// Has at least this many empty pages in stock.
pub(crate) fn stock(alloc: Global, spare: &mut Vec<Page>, count: usize) -> Result<(), AllocError>
    requires empty { AreEmpty spare.old.items }
    ensures empty { AreEmpty spare.new.items }
    ensures len { OnOk result (count ≤ length spare.new.items) }
{
    while spare.len() < count {
        spare.push(Page::new(alloc)?)?;
    }
    Ok(())
}

/// How often a page of this many rows is split: each split of 257 leaves 128 and 129.
pub(crate) fn splits(rows: usize) -> usize
    ensures { result ≡ splits rows }
{
    rows.saturating_sub(MAX_ROWS / 2 + 1) / (MAX_ROWS / 2)
}

/// How many splits edits in the order of their keys may take. One pass over both, which skips pages that none falls to.
pub(crate) fn pages_needed(pages: &[Page], edits: &[Edit]) -> usize
    requires open { AreOpen pages.now }
    requires edits { IsSorted edits.now }
    ensures { result ≡ need pages.now edits.now }
{
    let mut needed = 0;
    let mut left = pages;
    let mut rows = pages[0].len();
    for edit in edits {
        let home = home_from(left, 0, &edit.wanted());
        if home == 0 {
            rows += edit.added();
            continue;
        }
        needed += splits(rows);
        let (_, from_home) = left.split_at(home);
        left = from_home;
        rows = left[0].len() + edit.added();
    }
    needed + splits(rows)
}
