ghost use Rattle.std.specs.Prelude.{◌≡◌};
ghost use Rattle.rules.specs.Ranges as ranges;
ghost use Rattle.state_db.specs.Pages.{joined, ArePages};
ghost use Rattle.state_db.specs.Ranges.{is_before, in_front, from_key};

use crate::directory::home_of;
use crate::page::Page;
use crate::search::count_below;
use crate::slot::Slot;
use rules::KeyedRow;
use state_keys::Wanted;
use std::marker::Model;

/// Rows of a namespace in the order of their keys, up to before an end, borrowed one by one. A contract sees the list of
/// those that are left.
#[derive(Drop)]
pub struct Rows<'a> {
    rows: &'a [Slot],
    pages: &'a [Page],
    namespace: &'a [u8],
    end: &'a [u8],
}

impl<'a> Model for Rows<'a> {
    ghost use Rattle.std.specs.Coded.{coded_list};
    ghost use Rattle.rules.specs.Code.{keyed_row_code};
    ghost use Rattle.state_db.specs.Pages.{RowList};

    ghost Value = { RowList };

    ghost coded = { coded_list keyed_row_code };

    ghost use Rattle.std.specs.Prelude.{◌++◌};
    ghost use Rattle.state_db.specs.Pages.{joined, AreSized};
    ghost use Rattle.state_db.specs.Ranges.{in_front};

    ghost view = { λ r. in_front r.namespace.now r.end.now (r.rows.now ++ joined r.pages.now) };

    ghost invariant = { λ r. AreSized r.pages.now };
}

fn is_below_end(key: &[u8], end: &[u8]) -> bool
    ensures { result ≡ ranges.is_below key.now end.now }
{
    end.is_empty() || key.cmp(&end).is_lt()
}

fn is_before(row: &KeyedRow, namespace: &[u8], end: &[u8]) -> bool
    ensures { result ≡ is_before namespace.now end.now row.now }
{
    row.namespace().as_slice() == namespace && is_below_end(row.key().as_slice(), end)
}

impl<'a> Iterator for Rows<'a> {
    ghost use Rattle.std.specs.Iterator.{YieldsFirstBy, item_count};

    type Item = &'a KeyedRow;

    ghost next_gives = { YieldsFirstBy (λ r. r.now) (λ left. left) };

    ghost remaining = { item_count (λ left. left) };

    fn next(&mut self) -> Option<&'a KeyedRow> {
        if self.rows.is_empty() {
            let Some((page, rest)) = self.pages.split_first() else {
                return None;
            };
            self.rows = page.rows();
            self.pages = rest;
        }
        let Some((slot, rest)) = self.rows.split_first() else {
            return None;
        };
        let row = slot.keyed_row();
        if !is_before(row, self.namespace, self.end) {
            return None;
        }
        self.rows = rest;
        Some(row)
    }
}

/// The rows of a namespace from a key on, up to before an end. Logarithmic.
pub(crate) fn rows_from<'a>(
    pages: &'a [Page],
    start: &Wanted<'_>,
    namespace: &'a [u8],
    end: &'a [u8],
) -> Rows<'a>
    requires { ArePages pages.now }
    ensures { result ≡ in_front namespace.now end.now (from_key start.now (joined pages.now)) }
{
    if pages.is_empty() {
        return Rows {
            rows: &[],
            pages: &[],
            namespace,
            end,
        };
    }
    let home = home_of(pages, start);
    let rows = pages[home].rows();
    let (_, rows) = rows.split_at(count_below(rows, start));
    let (_, pages) = pages.split_at(home + 1);
    Rows {
        rows,
        pages,
        namespace,
        end,
    }
}
