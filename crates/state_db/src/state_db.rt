ghost use Rattle.std.specs.Prelude.{◌≡◌, ◌≤◌, [], sum, length, IfErr, IfOk, IfSome, OnOk, OnErr, slice_get};
ghost use Rattle.std.specs.Option.{option_copied};
ghost use Rattle.std.specs.FinMap.{get, empty, entries};
ghost use Rattle.rules.specs.CommitBytes.{update_bytes};
ghost use Rattle.rules.specs.Ranges.{is_within, rows_where};
ghost use Rattle.rules.specs.State.{with_changes};
ghost use Rattle.state_db.specs.Limits.{max_page_rows};
ghost use Rattle.state_db.specs.Batch.{changed};
ghost use Rattle.state_db.specs.LookedUp.{AreRows};
ghost use Rattle.state_db.specs.Search.{IsSorted};

use crate::apply::{edit_pages, first_pages};
use crate::batch::Batch;
use crate::directory::{Found, row_near, row_of};
use crate::edit::Edit;
use crate::looked_up::{FoundRows, KnownRows};
use crate::page::{MAX_ROWS, Page};
use crate::room::Room;
use crate::rows::{Rows, rows_from};
use crate::spare::{pages_needed, splits, stock};
use crate::update::update_of;
use rules::Row;
use state_keys::{StateKey, Wanted};
use std::alloc::{AllocError, Global};
use std::marker::Model;
use std::mem::replace;
use values::{BoundRef, KeyRef, NameRef};

/// The rows of a state, in pages of 1 to 256 rows: all rows of an earlier page are before those of a later one. A
/// contract sees the state, beside it how many rows each page has.
#[derive(Drop)]
pub struct StateDb {
    alloc: Global,
    pages: Vec<Page>,
    // in stock, without rows
    spare: Vec<Page>,
    // room for the shares of a batch's rows
    shares: Vec<Edit>,
}

impl Model for StateDb {
    ghost use Rattle.state_db.specs.Pages.{PagedState};
    ghost use Rattle.state_db.specs.Code.{paged_code};

    ghost Value = { PagedState };

    ghost coded = { paged_code };

    ghost use Rattle.std.specs.Prelude.{◌≡◌, []};
    ghost use Rattle.state_db.specs.Need.{AreEmpty};
    ghost use Rattle.state_db.specs.Pages.{ArePages, paged};

    ghost view = { λ s. paged s.pages.items };

    ghost invariant = { λ s. ArePages s.pages.items × AreEmpty s.spare.items × (s.shares.items ≡ []) };
}

/// The page of the last key that was looked up, which is a guess of the next one's while keys are in their order. No
/// clause speaks of it.
#[derive(Clone, Copy)]
struct LastPage {
    page: usize,
    is_in_order: bool,
}

impl LastPage {
    fn none() -> LastPage {
        LastPage {
            page: 0,
            is_in_order: true,
        }
    }

    fn guess(&self) -> usize {
        if self.is_in_order { self.page } else { 0 }
    }

    fn set(&mut self, page: usize) {
        self.is_in_order = self.is_in_order && self.page <= page;
        self.page = page;
    }
}

impl StateDb {
    /// No rows. Takes no memory.
    pub fn new(alloc: Global) -> StateDb
        ensures state { result.state ≡ empty }
        ensures sizes { result.sizes ≡ [] }
    {
        StateDb {
            alloc,
            pages: Vec::new(alloc),
            spare: Vec::new(alloc),
            shares: Vec::new(alloc),
        }
    }

    /// The row of a key. Logarithmic in the number of rows.
    pub fn get(&self, namespace: &NameRef<'_>, key: &KeyRef<'_>) -> Option<&Row>
        ensures { option_copied result ≡ get self.now.state (namespace.now, key.now) }
    {
        let wanted = Wanted::new(namespace, key.as_slice());
        row_of(self.pages.as_slice(), &wanted)
    }

    /// The row of a key whose head is known. Logarithmic in the number of rows.
    pub fn row(&self, key: &StateKey<'_>) -> Option<&Row>
        ensures { option_copied result ≡ get self.now.state key.now }
    {
        self.found_near(0, key).row
    }

    fn found_near(&self, guess: usize, key: &StateKey<'_>) -> Found<'_>
        ensures { option_copied result.row ≡ get self.now.state key.now }
    {
        row_near(self.pages.as_slice(), guess, &key.wanted())
    }

    /// The row of a key and its place in its page, looked for first near the last key.
    fn found_after(&self, last: &mut LastPage, key: &StateKey<'_>) -> (Option<&Row>, u32)
        ensures { option_copied result.0 ≡ get self.now.state key.now }
    {
        let found = self.found_near(last.guess(), key);
        last.set(found.page);
        // a page has few rows
        (found.row, found.place.min(MAX_ROWS) as u32)
    }

    /// The same of the key at a place of a list, of which some rows may be known.
    fn known_or_found<'a>(
        &'a self,
        known: &KnownRows<'_, '_, 'a>,
        place: usize,
        last: &mut LastPage,
        key: &StateKey<'_>,
    ) -> (Option<&'a Row>, u32)
        requires { AreRows self.now.state known.now.keys.now known.now.found.now.rows.items }
        ensures { option_copied result.0 ≡ get self.now.state key.now }
    {
        match known.at(place, key) {
            Some(row) => row,
            None => self.found_after(last, key),
        }
    }

    /// The rows of keys, each at its key's place. A look-up for each, which takes less if the keys are in their order;
    /// memory for lists of them.
    pub fn rows_of<'a>(
        &'a self,
        alloc: Global,
        keys: &[StateKey<'_>],
    ) -> Result<FoundRows<'a>, AllocError>
        ensures { IfOk result (λ found. AreRows self.now.state keys.now found.rows.items) }
    {
        let none = FoundRows::none(alloc);
        let known = KnownRows {
            keys: &[],
            found: &none,
            guesses: &[],
        };
        self.rows_beside(alloc, keys, &known)
    }

    /// The rows of keys, of which some rows are known, each at its key's place. A comparison for each of which a guess is
    /// right; else as [`rows_of`](StateDb::rows_of).
    pub fn rows_beside<'a>(
        &'a self,
        alloc: Global,
        keys: &[StateKey<'_>],
        known: &KnownRows<'_, '_, 'a>,
    ) -> Result<FoundRows<'a>, AllocError>
        requires { AreRows self.now.state known.now.keys.now known.now.found.now.rows.items }
        ensures { IfOk result (λ found. AreRows self.now.state keys.now found.rows.items) }
    {
        let mut rows = Vec::with_capacity(alloc, keys.len())?;
        let mut places = Vec::with_capacity(alloc, keys.len())?;
        let mut last = LastPage::none();
        for (place, key) in keys.iter().enumerate() {
            let (row, in_page) = self.known_or_found(known, place, &mut last, key);
            rows.push(row)?;
            places.push(in_page)?;
        }
        Ok(FoundRows { rows, places })
    }

    /// The rows of a namespace from a start to before an end, an empty end being no bound, in the order of their keys.
    /// Logarithmic in the number of rows to begin with, then constant for each.
    pub fn range<'a>(
        &'a self,
        namespace: &NameRef<'a>,
        start: &BoundRef<'a>,
        end: &BoundRef<'a>,
    ) -> Rows<'a>
        ensures { result ≡ rows_where self.now.state namespace.now (is_within start.now end.now) }
    {
        let wanted = Wanted::new(namespace, start.as_slice());
        rows_from(
            self.pages.as_slice(),
            &wanted,
            namespace.as_slice(),
            end.as_slice(),
        )
    }

    /// The room that the changes of a batch take. A step for each change and one pass over the pages between them.
    pub fn room_for(&self, batch: &Batch) -> Room {
        let edits = batch.edits();
        let pages = if self.pages.is_empty() {
            splits(edits.len()).saturating_add(1)
        } else {
            pages_needed(self.pages.as_slice(), edits)
        };
        Room {
            changes: edits.len(),
            pages,
        }
    }

    /// Makes room for changes, of pages and of shares of rows, and takes memory for it; the rows stay as they are. Meant for
    /// `room_for` a batch: `apply` of that batch is to find its memory here. Tests show this; no clause says it.
    pub fn reserve(&mut self, room: Room) -> Result<(), AllocError>
        ensures { self.new ≡ self.old }
    {
        stock(self.alloc, &mut self.spare, room.pages)?;
        self.pages.reserve(self.spare.len())?;
        self.shares.reserve(room.changes)?;
        Ok(())
    }

    /// Makes the changes of a batch; an `Err`, for want of memory, changes nothing. Takes memory for shares of the batch's rows, and for
    /// pages where the changes may split some. Each change takes logarithmic time and moves up to 256 rows of its page; a page that
    /// comes or goes moves the pages behind it.
    pub fn apply(&mut self, batch: &Batch) -> Result<(), AllocError>
        ensures ok { OnOk result (self.new.state ≡ changed self.old.state batch.now) }
        ensures err { OnErr result (self.new ≡ self.old) }
    {
        let room = replace(&mut self.shares, Vec::new(self.alloc));
        self.apply_owned(batch.share_in(room)?)
    }

    /// Makes the changes of a batch that is given away; an `Err` changes nothing, and the batch is lost. Its rows need no further owner:
    /// memory is taken for pages alone.
    pub fn apply_owned(&mut self, batch: Batch) -> Result<(), AllocError>
        ensures ok { OnOk result (self.new.state ≡ changed self.old.state batch) }
        ensures err { OnErr result (self.new ≡ self.old) }
    {
        match self.apply_or_return(batch) {
            Ok(()) => Ok(()),
            Err(_) => Err(AllocError),
        }
    }

    /// Makes the changes of a batch that is given away, or, for want of memory, none: then the batch comes back.
    pub fn apply_or_return(&mut self, batch: Batch) -> Result<(), Batch>
        ensures ok { OnOk result (self.new.state ≡ changed self.old.state batch) }
        ensures err { IfErr result (λ back. (back ≡ batch) × (self.new ≡ self.old)) }
    {
        match self.make(batch.into_edits()) {
            Ok(()) => Ok(()),
            Err(edits) => Err(Batch::of_edits(self.alloc, edits)),
        }
    }

    /// Makes edits in the order of their keys; or none, and hands them back.
    fn make(&mut self, edits: Vec<Edit>) -> Result<(), Vec<Edit>>
        requires { IsSorted edits.items }
        ensures ok { OnOk result (self.new.state ≡ with_changes self.old.state edits.items) }
        ensures err { IfErr result (λ back. (back.items ≡ edits.items) × (self.new ≡ self.old)) }
    {
        if self.pages.is_empty() {
            return first_pages(self.alloc, &mut self.pages, &mut self.spare, edits);
        }
        edit_pages(self.alloc, &mut self.pages, &mut self.spare, edits)
    }

    /// The rows that a batch would make differ, and changes none: how many they are, and then each with its key, in the order of the
    /// keys, spelled as the commit hash has them. A row that is put where the same one is, or removed where there is none, is none of
    /// them.
    ///
    /// The rows of some keys are known (`rows_of`): where keys are in their order a change of one of them takes a step for each key
    /// since the change before it, any other a look-up. Else linear in what is answered, for which it takes memory.
    pub fn update_bytes<'a>(
        &'a self,
        batch: &Batch,
        keys: &[StateKey<'_>],
        found: &FoundRows<'a>,
    ) -> Result<Vec<u8>, AllocError>
        requires { AreRows self.now.state keys.now found.now.rows.items }
        ensures { IfOk result (λ bytes. bytes.items ≡ update_bytes self.now.state (changed self.now.state batch.now)) }
    {
        update_of(
            self.alloc,
            self.pages.as_slice(),
            keys,
            found.rows.as_slice(),
            batch.edits(),
        )
    }

    /// How many pages hold the rows.
    pub fn pages(&self) -> usize
        ensures pages { result ≡ length self.now.sizes }
        ensures all { sum self.now.sizes ≡ length (entries self.now.state) }
    {
        self.pages.len()
    }

    /// How many rows a page has.
    pub fn page_rows(&self, page: usize) -> Option<usize>
        ensures rows { result ≡ slice_get self.now.sizes page }
        ensures size { IfSome result (λ rows. (1 ≤ rows) × (rows ≤ max_page_rows)) }
    {
        match self.pages.get(page) {
            None => None,
            Some(page) => Some(page.len()),
        }
    }
}
