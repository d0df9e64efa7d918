//! The pages of a state, in the order of their rows.
ghost use Rattle.std.specs.Prelude.{◌≡◌, ◌<◌, ◌≤◌, length};
ghost use Rattle.std.specs.Option.{option_copied};
ghost use Rattle.std.specs.FinMap.{find};
ghost use Rattle.rules.specs.State.{key_cmp};
ghost use Rattle.state_db.specs.Pages.{joined, home, AreInOrder, ArePages};

use crate::page::Page;
use crate::search::{Ordered, count_below, count_few_below};
use rules::Row;
use state_keys::Wanted;

/// The place of the page where a key belongs: the first whose last row isn't before the key, or the last page.
/// Logarithmic.
pub(crate) fn home_of(pages: &[Page], wanted: &Wanted<'_>) -> usize
    requires pages { AreInOrder pages.now }
    requires some { 0 < length pages.now }
    ensures place { result ≡ home wanted.now pages.now }
    ensures bound { result < length pages.now }
{
    let (others, _) = pages.split_at(pages.len() - 1);
    count_below(others, wanted)
}

/// The page of a key that is known to be at a place or after it. Logarithmic in the distance.
pub(crate) fn home_from(pages: &[Page], from: usize, wanted: &Wanted<'_>) -> usize
    requires pages { AreInOrder pages.now }
    requires some { 0 < length pages.now }
    requires from { from ≤ home wanted.now pages.now }
    ensures place { result ≡ home wanted.now pages.now }
    ensures bound { result < length pages.now }
{
    let (others, _) = pages.split_at(pages.len() - 1);
    let (_, behind) = others.split_at(from);
    from + count_few_below(behind, wanted)
}

/// The page of a key, by a guess: logarithmic in how far after it, if the page before it ends before the key;
/// otherwise in all pages.
fn home_near(pages: &[Page], guess: usize, wanted: &Wanted<'_>) -> usize
    requires pages { AreInOrder pages.now }
    requires some { 0 < length pages.now }
    ensures place { result ≡ home wanted.now pages.now }
    ensures bound { result < length pages.now }
{
    if guess == 0 || guess >= pages.len() || !pages[guess - 1].is_below(wanted) {
        return home_of(pages, wanted);
    }
    home_from(pages, guess, wanted)
}

/// Where a key was looked for.
#[derive(Clone, Copy)]
pub(crate) struct Found<'a> {
    /// Its row, if it has one.
    pub row: Option<&'a Row>,
    /// The place of its page, and the place in this page where the row is or would be.
    pub page: usize,
    pub place: usize,
}

/// The row of a key, by a guess of its page, as `home_near` takes one.
pub(crate) fn row_near<'a>(pages: &'a [Page], guess: usize, wanted: &Wanted<'_>) -> Found<'a>
    requires { ArePages pages.now }
    ensures { option_copied result.row ≡ find key_cmp wanted.now (joined pages.now) }
{
    if pages.is_empty() {
        return Found {
            row: None,
            page: 0,
            place: 0,
        };
    }
    let page = home_near(pages, guess, wanted);
    let (row, place) = pages[page].row(wanted);
    Found { row, page, place }
}

/// The row of a key, if it has one. Logarithmic.
pub(crate) fn row_of<'a>(pages: &'a [Page], wanted: &Wanted<'_>) -> Option<&'a Row>
    requires { ArePages pages.now }
    ensures { option_copied result ≡ find key_cmp wanted.now (joined pages.now) }
{
    row_near(pages, 0, wanted).row
}
