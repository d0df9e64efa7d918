ghost use Rattle.std.specs.Prelude.{◌≡◌, ◌==◌, ◌≤◌, ◌++◌, [], length, IfOk};
ghost use Rattle.std.specs.Option.{option_copied};
ghost use Rattle.std.specs.FinMap.{find};
ghost use Rattle.std.specs.FinMap.Entries.{put};
ghost use Rattle.std.specs.Vec.{vec_capacity};
ghost use Rattle.rules.specs.State.{key_cmp};
ghost use Rattle.state_db.specs.Limits.{max_page_rows};
ghost use Rattle.state_db.specs.Edits.{without};
ghost use Rattle.state_db.specs.Pages.{is_page_below};
ghost use Rattle.state_db.specs.Search.{IsSorted};

use crate::search::Ordered;
use crate::slot::Slot;
use crate::slots;
use rules::Row;
use state_keys::{HEAD_BYTES, Head, Wanted};
use std::alloc::{AllocError, Global};
use std::marker::Model;

/// The most rows of a page.
pub(crate) const MAX_ROWS: usize = 256;

/// Rows in the order of their keys, and the head of the last of them, so that most searches needn't look at the rows.
/// There is room for one row more than a page is to have. A contract sees the rows.
#[derive(Drop)]
pub(crate) struct Page {
    last: Head,
    rows: Vec<Slot>,
}

impl Model for Page {
    ghost use Rattle.std.specs.Coded.{coded_list};
    ghost use Rattle.rules.specs.Code.{keyed_row_code};
    ghost use Rattle.state_db.specs.Pages.{RowList};

    ghost Value = { RowList };

    ghost coded = { coded_list keyed_row_code };

    ghost use Rattle.std.specs.Prelude.{◌≡◌, ◌≤◌};
    ghost use Rattle.std.specs.Vec.{vec_capacity};
    ghost use Rattle.state_db.specs.Pages.{last_head};

    ghost view = { λ p. p.rows.items };

    ghost invariant = { λ p. (p.last ≡ last_head p.rows.items) × (257 ≤ vec_capacity p.rows) };
}

impl Page {
    /// No rows.
    pub fn new(alloc: Global) -> Result<Page, AllocError>
        ensures { IfOk result (λ page. page ≡ []) }
    {
        Ok(Page {
            last: [0; HEAD_BYTES],
            rows: Vec::with_capacity(alloc, MAX_ROWS + 1)?,
        })
    }

    /// How many rows it has.
    pub fn len(&self) -> usize
        ensures { result ≡ length self.now }
    {
        self.rows.len()
    }

    /// Whether it has no row.
    pub fn is_empty(&self) -> bool
        ensures { result ≡ (length self.now == 0) }
    {
        self.rows.is_empty()
    }

    /// Its rows, in the order of their keys.
    pub fn rows(&self) -> &[Slot]
        ensures { result.now ≡ self.now }
    {
        self.rows.as_slice()
    }

    /// The row of a key, if it has one, and the place where it is or would be. Logarithmic.
    pub fn row(&self, wanted: &Wanted<'_>) -> (Option<&Row>, usize)
        requires { IsSorted self.now }
        ensures { option_copied result.0 ≡ find key_cmp wanted.now self.now }
    {
        slots::row_in(self.rows.as_slice(), wanted)
    }

    /// Puts a row in its place, which may be guessed, in the place of one with its key. Takes no memory.
    pub fn put(&mut self, slot: Slot, guess: usize)
        requires sorted { IsSorted self.old }
        requires room { length self.old ≤ max_page_rows }
        ensures { self.new ≡ put key_cmp slot.0 slot.1 self.old }
    {
        slots::put(&mut self.rows, slot, guess);
        self.last = slots::last_head(self.rows.as_slice());
    }

    /// Removes the row of a key, if there is one.
    pub fn remove(&mut self, wanted: &Wanted<'_>)
        requires { IsSorted self.old }
        ensures { self.new ≡ without wanted.now self.old }
    {
        slots::remove(&mut self.rows, wanted);
        self.last = slots::last_head(self.rows.as_slice());
    }

    /// Moves all rows but the first 128 of one too many into an empty page. Takes no memory.
    pub fn split(&mut self, upper: &mut Page)
        requires full { length self.old ≡ 257 }
        requires empty { upper.old ≡ [] }
        ensures rows { self.old ≡ self.new ++ upper.new }
        ensures lower { length self.new ≡ 128 }
    {
        slots::move_tail(&mut self.rows, &mut upper.rows, MAX_ROWS / 2);
        self.last = slots::last_head(self.rows.as_slice());
        upper.last = slots::last_head(upper.rows.as_slice());
    }
}

impl Ordered for Page {
    ghost is_below = { is_page_below };

    fn is_below(&self, wanted: &Wanted<'_>) -> bool {
        match self.rows.last() {
            None => true,
            Some(last) => last.order_with(&self.last, wanted).is_lt(),
        }
    }
}
