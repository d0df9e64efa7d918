//! Rows that were looked up once for keys, and needn't be again.
ghost use Rattle.std.specs.Prelude.{◌≡◌, ◌++◌, [], IfSome, OnOk};
ghost use Rattle.std.specs.Option.{option_copied};
ghost use Rattle.std.specs.FinMap.{get, find, from_sorted};
ghost use Rattle.rules.specs.State.{State, key_cmp};
ghost use Rattle.state_db.specs.LookedUp.{AreRows};
ghost use Rattle.state_db.specs.Pages.{joined, ArePages};

use crate::directory::row_of;
use crate::edit::Edit;
use crate::page::Page;
use rules::Row;
use state_keys::StateKey;
use std::alloc::{AllocError, Global};

/// The rows of keys, each at its key's place; beside each the place in its page where it was found, or would be. No clause speaks of
/// the places: they are guesses of where the rows of the same keys are put later.
#[derive(Drop)]
pub struct FoundRows<'a> {
    pub rows: Vec<Option<&'a Row>>,
    pub(crate) places: Vec<u32>,
}

impl<'a> FoundRows<'a> {
    /// Of no keys. Takes no memory.
    pub(crate) fn none(alloc: Global) -> FoundRows<'a>
        ensures { result.rows.items ≡ [] }
    {
        FoundRows {
            rows: Vec::new(alloc),
            places: Vec::new(alloc),
        }
    }

    /// Appends those of more keys. Takes memory for them.
    pub fn append(&mut self, more: FoundRows<'a>) -> Result<(), AllocError>
        ensures { OnOk result (self.new.rows.items ≡ self.old.rows.items ++ more.entry.rows.items) }
    {
        let FoundRows {
            mut rows,
            mut places,
        } = more;
        self.rows.append(&mut rows)?;
        self.places.append(&mut places)
    }

    /// A guess for the key at this place.
    pub(crate) fn place(&self, at: usize) -> u32 {
        self.places.get(at).copied().unwrap_or(0)
    }
}

/// Rows that were looked up of some keys, and for each key of another list a guess which of these it is. No clause speaks
/// of the guesses: keys are compared.
#[derive(Clone, Copy)]
pub struct KnownRows<'k, 'w, 'a> {
    pub keys: &'k [StateKey<'w>],
    pub found: &'k FoundRows<'a>,
    pub guesses: &'k [Option<u32>],
}

impl<'k, 'w, 'a> KnownRows<'k, 'w, 'a> {
    /// The row of the key at a place of the other list, and a guess of its place in its page, if it is known.
    pub(crate) fn at(&self, place: usize, key: &StateKey<'_>) -> Option<(Option<&'a Row>, u32)>
        ensures { (s : State) → AreRows s self.now.keys.now self.now.found.now.rows.items → IfSome result (λ r. option_copied r.0 ≡ get s key.now) }
    {
        let guess = self.guesses.get(place).copied().flatten()? as usize;
        let row = known_row(self.keys, self.found.rows.as_slice(), guess, key)?;
        Some((row, self.found.place(guess)))
    }
}

/// The row of a key, if that is the known key at this place.
fn known_row<'a>(
    keys: &[StateKey<'_>],
    rows: &[Option<&'a Row>],
    at: usize,
    key: &StateKey<'_>,
) -> Option<Option<&'a Row>>
    ensures { (s : State) → AreRows s keys.now rows.now → IfSome result (λ row. option_copied row ≡ get s key.now) }
{
    let known = keys.get(at)?;
    let row = rows.get(at)?;
    if known.is_same(key) { Some(*row) } else { None }
}

/// The place of the first key, from a place on, that doesn't stand before an edit's. No clause speaks of it: which key stands there is
/// compared.
pub(crate) fn passed(keys: &[StateKey<'_>], from: usize, edit: &Edit) -> usize {
    let mut at = from;
    while at < keys.len() && edit.order(&keys[at].wanted()).is_gt() {
        at += 1;
    }
    at
}

/// The row of an edit's key, if that is the key at this place.
fn row_at<'a>(
    keys: &[StateKey<'_>],
    rows: &[Option<&'a Row>],
    at: usize,
    edit: &Edit,
) -> Option<Option<&'a Row>>
    ensures { (s : State) → AreRows s keys.now rows.now → IfSome result (λ row. option_copied row ≡ get s edit.now.0) }
{
    let key = keys.get(at)?;
    let row = rows.get(at)?;
    if edit.order(&key.wanted()).is_eq() {
        Some(*row)
    } else {
        None
    }
}

/// The row of an edit's key, and the place among the keys where those after it are looked for.
pub(crate) fn row_from<'a>(
    pages: &'a [Page],
    keys: &[StateKey<'_>],
    rows: &[Option<&'a Row>],
    from: usize,
    edit: &Edit,
) -> (Option<&'a Row>, usize)
    requires pages { ArePages pages.now }
    requires rows { AreRows (from_sorted (joined pages.now)) keys.now rows.now }
    ensures { option_copied result.0 ≡ find key_cmp edit.now.0 (joined pages.now) }
{
    let at = passed(keys, from, edit);
    let row = match row_at(keys, rows, at, edit) {
        Some(row) => row,
        None => row_of(pages, &edit.wanted()),
    };
    (row, at)
}
