//! The slots of a page.
ghost use Rattle.std.specs.Prelude.{◌≡◌, ◌<◌, ◌≤◌, [], ◌++◌, length};
ghost use Rattle.std.specs.Option.{option_copied};
ghost use Rattle.std.specs.FinMap.{find};
ghost use Rattle.std.specs.FinMap.Entries.{put};
ghost use Rattle.std.specs.Vec.{vec_capacity};
ghost use Rattle.rules.specs.State.{key_cmp};
ghost use Rattle.state_db.specs.Edits.{without};
ghost use Rattle.state_db.specs.Pages.{last_head};
ghost use Rattle.state_db.specs.Search.{IsSorted, is_below, leading, ties_at};

use crate::search::count_below;
use crate::slot::Slot;
use rules::Row;
use state_keys::{HEAD_BYTES, Head, Wanted};

/// The head of the last row.
pub(crate) fn last_head(rows: &[Slot]) -> Head
    ensures { result ≡ last_head rows.now }
{
    match rows.last() {
        None => [0; HEAD_BYTES],
        Some(slot) => slot.head(),
    }
}

/// The row at a place, if there is one and it has the key.
fn row_at<'a>(rows: &'a [Slot], place: usize, wanted: &Wanted<'_>) -> Option<&'a Row>
    requires sorted { IsSorted rows.now }
    requires place { place ≡ leading (is_below wanted.now) rows.now }
    ensures { option_copied result ≡ find key_cmp wanted.now rows.now }
{
    match rows.get(place) {
        None => None,
        Some(slot) => slot.row_of(wanted),
    }
}

/// The row of a key among rows in order, and the place where it is or would be. Logarithmic.
pub(crate) fn row_in<'a>(rows: &'a [Slot], wanted: &Wanted<'_>) -> (Option<&'a Row>, usize)
    requires { IsSorted rows.now }
    ensures { option_copied result.0 ≡ find key_cmp wanted.now rows.now }
{
    let place = count_below(rows, wanted);
    (row_at(rows, place, wanted), place)
}

/// Whether the row at a place, if there is one, has the key.
fn is_at(rows: &[Slot], place: usize, wanted: &Wanted<'_>) -> bool
    ensures { result ≡ ties_at wanted.now rows.now place }
{
    match rows.get(place) {
        None => false,
        Some(slot) => slot.order(wanted).is_eq(),
    }
}

/// How many rows are before the key: as many as was guessed, if it is there. Otherwise a search.
fn place_from(rows: &[Slot], guess: usize, wanted: &Wanted<'_>) -> usize
    requires { IsSorted rows.now }
    ensures place { result ≡ leading (is_below wanted.now) rows.now }
    ensures bound { result ≤ length rows.now }
{
    if is_at(rows, guess, wanted) {
        return guess;
    }
    count_below(rows, wanted)
}

/// Puts a row in its place, which may be guessed, in the place of one with its key. Takes no memory.
pub(crate) fn put(rows: &mut Vec<Slot>, slot: Slot, guess: usize)
    requires sorted { IsSorted rows.old.items }
    requires room { length rows.old.items < vec_capacity rows.old }
    ensures items { rows.new.items ≡ put key_cmp slot.0 slot.1 rows.old.items }
    ensures capacity { vec_capacity rows.old ≤ vec_capacity rows.new }
{
    let wanted = slot.wanted();
    let place = place_from(rows.as_slice(), guess, &wanted);
    if is_at(rows.as_slice(), place, &wanted) {
        rows[place] = slot;
    } else {
        let _ = rows.insert(place, slot);
    }
}

/// Removes the row of a key, if there is one.
pub(crate) fn remove(rows: &mut Vec<Slot>, wanted: &Wanted<'_>)
    requires { IsSorted rows.old.items }
    ensures items { rows.new.items ≡ without wanted.now rows.old.items }
    ensures capacity { vec_capacity rows.old ≤ vec_capacity rows.new }
{
    let place = count_below(rows.as_slice(), wanted);
    if is_at(rows.as_slice(), place, wanted) {
        let _ = rows.remove(place);
    }
}

/// Moves the rows from a place on into an empty list with room for them. Takes no memory.
pub(crate) fn move_tail(rows: &mut Vec<Slot>, tail: &mut Vec<Slot>, keep: usize)
    requires empty { tail.old.items ≡ [] }
    requires keep { keep ≤ length rows.old.items }
    requires room { length rows.old.items ≤ vec_capacity tail.old }
    ensures items { rows.old.items ≡ rows.new.items ++ tail.new.items }
    ensures len { length rows.new.items ≡ keep }
    ensures rows_capacity { vec_capacity rows.old ≤ vec_capacity rows.new }
    ensures capacity { vec_capacity tail.old ≤ vec_capacity tail.new }
{
    while rows.len() > keep {
        if let Some(row) = rows.pop() {
            let _ = tail.push(row);
        }
    }
    tail.reverse();
}
