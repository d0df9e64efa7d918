//! Changes made in pages: all memory first, then moves alone.
ghost use Rattle.std.specs.Prelude.{◌≡◌, ◌==◌, ◌<◌, ◌≤◌, ◌+◌, ◌-◌, [], ◌∷◌, ◌++◌, true, length, get_or, IfErr, OnOk, OnErr};
ghost use Rattle.std.specs.Vec.{vec_capacity};
ghost use Rattle.state_db.specs.Limits.{max_page_rows};
ghost use Rattle.state_db.specs.Edits.{edited};
ghost use Rattle.state_db.specs.Need.{need, AreOpen, AreEmpty};
ghost use Rattle.state_db.specs.Pages.{joined, home, is_page_below, ArePages};
ghost use Rattle.state_db.specs.Search.{IsSorted};
ghost use Rattle.state_db.specs.Steps.{IsPut, IsRemoved, IsPassed, IsBehindFull};

use crate::directory::home_from;
use crate::edit::Edit;
use crate::page::{MAX_ROWS, Page};
use crate::search::Ordered;
use crate::slot::Slot;
use crate::spare::{pages_needed, stock};
use rules::Change;
use state_keys::Wanted;
use std::alloc::{AllocError, Global};

/// Whether the page is full, and all its rows are before the key.
fn is_full_before(page: &Page, wanted: &Wanted<'_>) -> bool
    ensures full { result ≡ true → length page.now ≡ max_page_rows }
    ensures below { result ≡ true → is_page_below wanted.now page.now ≡ true }
{
    if page.len() != MAX_ROWS {
        return false;
    }
    page.is_below(wanted)
}

/// Puts a row after all others into a page of its own, so that rows that come in order fill their pages. Takes no memory.
fn begin_page(pages: &mut Vec<Page>, spare: &mut Vec<Page>, slot: Slot)
    requires open { AreOpen pages.old.items }
    requires behind { IsBehindFull slot.0 pages.old.items }
    requires empty { AreEmpty spare.old.items }
    requires stock { 0 < length spare.old.items }
    requires room { length pages.old.items + length spare.old.items ≤ vec_capacity pages.old }
    ensures pages { pages.new.items ≡ pages.old.items ++ (slot ∷ []) ∷ [] }
    ensures made { IsPut slot.0 slot.1 pages.old.items pages.new.items (length spare.old.items) (length spare.new.items) }
    ensures empty { AreEmpty spare.new.items }
    ensures room { length pages.new.items + length spare.new.items ≤ vec_capacity pages.new }
{
    if let Some(mut page) = spare.pop() {
        page.put(slot, 0);
        pages.push_reserved(page);
    }
}

/// Puts a row, whose page is at or behind a place, and its place there guessed. Answers where that page is, or its first part. Takes
/// no memory.
fn put(pages: &mut Vec<Page>, spare: &mut Vec<Page>, from: usize, slot: Slot, guess: usize) -> usize
    requires open { AreOpen pages.old.items }
    requires from { from ≤ home slot.0 pages.old.items }
    requires empty { AreEmpty spare.old.items }
    requires stock { max_page_rows ≤ length (get_or pages.old.items (home slot.0 pages.old.items) []) → 0 < length spare.old.items }
    requires room { length pages.old.items + length spare.old.items ≤ vec_capacity pages.old }
    ensures made { IsPut slot.0 slot.1 pages.old.items pages.new.items (length spare.old.items) (length spare.new.items) }
    ensures passed { IsPassed slot.0 pages.new.items result }
    ensures empty { AreEmpty spare.new.items }
    ensures room { length pages.new.items + length spare.new.items ≤ vec_capacity pages.new }
{
    let at = home_from(pages.as_slice(), from, &slot.wanted());
    if is_full_before(&pages[at], &slot.wanted()) {
        begin_page(pages, spare, slot);
        return at;
    }
    let page = &mut pages[at];
    page.put(slot, guess);
    if page.len() > MAX_ROWS {
        if let Some(mut upper) = spare.pop() {
            page.split(&mut upper);
            let _ = pages.insert(at + 1, upper);
        }
    }
    at
}

/// Removes the row of a key, if there is one, whose page is at or behind a place. A page that is emptied goes, but for the
/// last. Answers where the page was. Takes no memory.
fn remove(pages: &mut Vec<Page>, from: usize, wanted: &Wanted<'_>) -> usize
    requires open { AreOpen pages.old.items }
    requires from { from ≤ home wanted.now pages.old.items }
    ensures removed { IsRemoved wanted.now pages.old.items pages.new.items }
    ensures passed { IsPassed wanted.now pages.new.items result }
    ensures len { length pages.new.items ≤ length pages.old.items }
    ensures capacity { vec_capacity pages.old ≤ vec_capacity pages.new }
{
    let at = home_from(pages.as_slice(), from, wanted);
    let page = &mut pages[at];
    page.remove(wanted);
    if !page.is_empty() {
        return at;
    }
    if at + 1 < pages.len() {
        let _ = pages.remove(at);
    }
    at
}

/// Makes edits in the order of their keys, in one pass over them and the pages. Takes no memory.
fn make_all(pages: &mut Vec<Page>, spare: &mut Vec<Page>, edits: Vec<Edit>)
    requires open { AreOpen pages.old.items }
    requires empty { AreEmpty spare.old.items }
    requires edits { IsSorted edits.items }
    requires stock { need pages.old.items edits.items ≤ length spare.old.items }
    requires room { length pages.old.items + length spare.old.items ≤ vec_capacity pages.old }
    ensures open { AreOpen pages.new.items }
    ensures rows { joined pages.new.items ≡ edited (joined pages.old.items) edits.items }
    ensures empty { AreEmpty spare.new.items }
{
    let mut at = 0;
    for edit in edits {
        let head = edit.head();
        let guess = edit.place();
        at = match edit.into_change() {
            Change::Put(row) => put(pages, spare, at, Slot::with_head(head, row), guess),
            Change::Remove(kept) => {
                let key = kept.key();
                remove(
                    pages,
                    at,
                    &Wanted::with_head(head, &kept.namespace(), key.as_slice()),
                )
            }
        };
    }
}

fn is_last_empty(pages: &[Page]) -> bool
    requires { 0 < length pages.now }
    ensures { result ≡ (length (get_or pages.now (length pages.now - 1) []) == 0) }
{
    pages[pages.len() - 1].is_empty()
}

/// Takes the last page away if it is empty.
fn drop_empty_last(pages: &mut Vec<Page>)
    requires { AreOpen pages.old.items }
    ensures pages { ArePages pages.new.items }
    ensures rows { joined pages.new.items ≡ joined pages.old.items }
{
    if is_last_empty(pages.as_slice()) {
        let _ = pages.pop();
    }
}

/// All the memory that edits may want: pages in stock for those that are split, and room for these.
fn stock_for(
    alloc: Global,
    pages: &mut Vec<Page>,
    spare: &mut Vec<Page>,
    edits: &[Edit],
) -> Result<(), AllocError>
    requires open { AreOpen pages.old.items }
    requires edits { IsSorted edits.now }
    requires empty { AreEmpty spare.old.items }
    ensures same { pages.new.items ≡ pages.old.items }
    ensures empty { AreEmpty spare.new.items }
    ensures stock { OnOk result (need pages.new.items edits.now ≤ length spare.new.items) }
    ensures room { OnOk result (length pages.new.items + length spare.new.items ≤ vec_capacity pages.new) }
{
    stock(alloc, spare, pages_needed(pages.as_slice(), edits))?;
    pages.reserve(spare.len())
}

/// Makes edits in the order of their keys; or none, and hands them back. Pages in stock are taken first.
pub(crate) fn edit_pages(
    alloc: Global,
    pages: &mut Vec<Page>,
    spare: &mut Vec<Page>,
    edits: Vec<Edit>,
) -> Result<(), Vec<Edit>>
    requires open { AreOpen pages.old.items }
    requires edits { IsSorted edits.items }
    requires empty { AreEmpty spare.old.items }
    ensures pages { OnOk result (ArePages pages.new.items) }
    ensures rows { OnOk result (joined pages.new.items ≡ edited (joined pages.old.items) edits.items) }
    ensures err { IfErr result (λ back. (back.items ≡ edits.items) × (pages.new.items ≡ pages.old.items)) }
    ensures empty { AreEmpty spare.new.items }
{
    let Ok(()) = stock_for(alloc, pages, spare, edits.as_slice()) else {
        return Err(edits);
    };
    make_all(pages, spare, edits);
    drop_empty_last(pages);
    Ok(())
}

/// A page without rows, where there was none.
fn begin(alloc: Global, pages: &mut Vec<Page>, spare: &mut Vec<Page>) -> Result<(), AllocError>
    requires none { pages.old.items ≡ [] }
    requires empty { AreEmpty spare.old.items }
    ensures ok { OnOk result (pages.new.items ≡ [] ∷ []) }
    ensures err { OnErr result (pages.new.items ≡ []) }
    ensures empty { AreEmpty spare.new.items }
{
    pages.reserve(1)?;
    stock(alloc, spare, 1)?;
    let Some(page) = spare.pop() else {
        return Err(AllocError);
    };
    pages.push_reserved(page);
    Ok(())
}

/// Makes edits in the order of their keys if there are no pages; or none, and returns them.
pub(crate) fn first_pages(
    alloc: Global,
    pages: &mut Vec<Page>,
    spare: &mut Vec<Page>,
    edits: Vec<Edit>,
) -> Result<(), Vec<Edit>>
    requires none { pages.old.items ≡ [] }
    requires edits { IsSorted edits.items }
    requires empty { AreEmpty spare.old.items }
    ensures pages { OnOk result (ArePages pages.new.items) }
    ensures rows { OnOk result (joined pages.new.items ≡ edited [] edits.items) }
    ensures err { IfErr result (λ back. (back.items ≡ edits.items) × (pages.new.items ≡ [])) }
    ensures empty { AreEmpty spare.new.items }
{
    let Ok(()) = begin(alloc, pages, spare) else {
        return Err(edits);
    };
    let made = edit_pages(alloc, pages, spare, edits);
    if made.is_err() {
        let _ = pages.pop();
    }
    made
}
