ghost use Rattle.std.specs.Prelude.{◌≡◌, IsTrue};
ghost use Rattle.std.specs.Option.{option_copied};
ghost use Rattle.values.specs.Name.{is_name};
ghost use Rattle.rules.specs.State.{key_cmp};
ghost use Rattle.state_keys.specs.Head.{head_of};
ghost use Rattle.state_db.specs.Search.{is_below, if_it};

use crate::search::Ordered;
use rules::{KeyedRow, Row};
use state_keys::{Head, Wanted};
use std::cmp::Ordering;
use std::marker::Model;
use values::Shared;

/// A shared row in a page, beside it the head of its key, so that most comparisons needn't look at the row. A contract
/// sees the key with its row.
#[derive(Drop)]
pub(crate) struct Slot {
    head: Head,
    row: Shared<KeyedRow>,
}

impl Model for Slot {
    ghost use Rattle.rules.specs.declared.row.Row.{Row};
    ghost use Rattle.rules.specs.Code.{keyed_row_code};
    ghost use Rattle.state_db.specs.Search.{Keyed};

    ghost Value = { Keyed Row };

    ghost coded = { keyed_row_code };

    ghost use Rattle.std.specs.Prelude.{◌≡◌, IsTrue};
    ghost use Rattle.values.specs.Name.{is_name};
    ghost use Rattle.state_keys.specs.Head.{head_of};

    ghost view = { λ s. s.row };

    ghost invariant = { λ s. (s.head ≡ head_of s.row.0) × IsTrue (is_name s.row.0.0) };
}

impl Slot {
    /// A row, if the head of its key is known.
    pub fn with_head(head: Head, row: Shared<KeyedRow>) -> Slot
        requires head { head ≡ head_of row.0 }
        requires named { IsTrue (is_name row.0.0) }
        ensures { result ≡ row }
    {
        Slot { head, row }
    }

    /// The head of its key.
    pub fn head(&self) -> Head
        ensures { result ≡ head_of self.now.0 }
    {
        self.head
    }

    /// The row at its key.
    pub fn keyed_row(&self) -> &KeyedRow
        ensures { result.now ≡ self.now }
    {
        self.row.get()
    }

    /// Its key, to be looked for.
    pub fn wanted(&self) -> Wanted<'_>
        ensures { result ≡ self.now.0 }
    {
        let row = self.row.get();
        let key = row.key();
        Wanted::with_head(self.head, &row.namespace(), key.as_slice())
    }

    /// The order of its key, which has this head, and another. Reads the row only if the heads are the same.
    pub fn order_with(&self, head: &Head, wanted: &Wanted<'_>) -> Ordering
        requires { head.now ≡ head_of self.now.0 }
        ensures { result ≡ key_cmp self.now.0 wanted.now }
    {
        let row = &self.row;
        match wanted.order_by_head(head) {
            Some(order) => order,
            None => {
                let namespace = row.get().namespace();
                let key = row.get().key();
                wanted.order_of(namespace.as_slice(), key.as_slice())
            }
        }
    }

    /// The order of its key and another.
    pub fn order(&self, wanted: &Wanted<'_>) -> Ordering
        ensures { result ≡ key_cmp self.now.0 wanted.now }
    {
        self.order_with(&self.head, wanted)
    }

    /// Its row, if it has the key.
    pub fn row_of(&self, wanted: &Wanted<'_>) -> Option<&Row>
        ensures { option_copied result ≡ if_it wanted.now self.now }
    {
        if self.order(wanted).is_eq() {
            Some(self.row.get().row())
        } else {
            None
        }
    }
}

impl Ordered for Slot {
    ghost is_below = { is_below };

    fn is_below(&self, wanted: &Wanted<'_>) -> bool {
        self.order(wanted).is_lt()
    }
}
