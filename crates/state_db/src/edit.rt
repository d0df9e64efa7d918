ghost use Rattle.std.specs.Prelude.{◌≡◌, IsTrue, IfOk};
ghost use Rattle.std.specs.Option.{option_copied};
ghost use Rattle.values.specs.Name.{is_name};
ghost use Rattle.rules.specs.State.{key_cmp};
ghost use Rattle.rules.specs.Delta.{change_of};
ghost use Rattle.state_keys.specs.Head.{head_of};
ghost use Rattle.state_db.specs.Need.{added};
ghost use Rattle.state_db.specs.Search.{is_below};

use crate::search::Ordered;
use rules::{Change, Row};
use state_keys::{Head, Wanted, head_of};
use std::alloc::AllocError;
use std::cmp::Ordering;
use std::marker::Model;
use values::{KeyRef, NameRef};

/// What becomes of a key in a batch, beside it the head of the key. A contract sees the key with its row, or none where
/// it is removed.
#[derive(Drop)]
pub(crate) struct Edit {
    head: Head,
    // where in its page the key's row may be: keys are compared there
    place: u32,
    change: Change,
}

impl Model for Edit {
    ghost use Rattle.rules.specs.declared.row.Row.{Row};
    ghost use Rattle.rules.specs.State.{ChangeOf};
    ghost use Rattle.state_db.specs.Code.{change_code};

    ghost Value = { ChangeOf Row };

    ghost coded = { change_code };

    ghost use Rattle.rules.specs.Delta.{change_of};
    ghost use Rattle.std.specs.Prelude.{◌≡◌, IsTrue};
    ghost use Rattle.values.specs.Name.{is_name};
    ghost use Rattle.state_keys.specs.Head.{head_of};

    ghost view = { λ e. change_of e.change };

    ghost invariant = { λ e. (e.head ≡ head_of (change_of e.change).0) × IsTrue (is_name (change_of e.change).0.0) };
}

impl Edit {
    /// The change, with the head of its key.
    pub fn new(change: Change) -> Edit
        ensures { result ≡ change_of change }
    {
        let namespace = change.namespace();
        let key = change.key();
        let head = head_of(namespace.as_slice(), key.as_slice());
        Edit {
            head,
            place: 0,
            change,
        }
    }

    /// Guesses its place in a page.
    pub fn guess(&mut self, place: u32)
        ensures { self.new ≡ self.old }
    {
        self.place = place;
    }

    /// Where in its page the key's row may be. No clause speaks of it.
    pub fn place(&self) -> usize {
        self.place as usize
    }

    /// The head of its key.
    pub fn head(&self) -> Head
        ensures head { result ≡ head_of self.now.0 }
        ensures named { IsTrue (is_name self.now.0.0) }
    {
        self.head
    }

    /// The change alone.
    pub fn into_change(self) -> Change
        ensures { change_of result ≡ self }
    {
        self.change
    }

    /// The namespace of its key.
    pub fn namespace(&self) -> NameRef<'_>
        ensures { result ≡ self.now.0.0 }
    {
        self.change.namespace()
    }

    /// Its key in the namespace.
    pub fn key(&self) -> KeyRef<'_>
        ensures { result ≡ self.now.0.1 }
    {
        self.change.key()
    }

    /// The row, or none if the key is removed.
    pub fn row(&self) -> Option<&Row>
        ensures { option_copied result ≡ self.now.1 }
    {
        self.change.row()
    }

    /// How many rows it may add.
    pub fn added(&self) -> usize
        ensures { result ≡ added self.now }
    {
        match &self.change {
            Change::Put(_) => 1,
            Change::Remove(_) => 0,
        }
    }

    /// The edit once more: its row or key gets one more owner. Takes no memory.
    pub fn share(&self) -> Result<Edit, AllocError>
        ensures { IfOk result (λ shared. shared ≡ self.now) }
    {
        Ok(Edit {
            head: self.head,
            place: self.place,
            change: self.change.share()?,
        })
    }

    /// Its key, to be looked for.
    pub fn wanted(&self) -> Wanted<'_>
        ensures { result ≡ self.now.0 }
    {
        let key = self.change.key();
        Wanted::with_head(self.head, &self.change.namespace(), key.as_slice())
    }

    /// The order of its key and another.
    pub fn order(&self, wanted: &Wanted<'_>) -> Ordering
        ensures { result ≡ key_cmp self.now.0 wanted.now }
    {
        match wanted.order_by_head(&self.head) {
            Some(order) => order,
            None => {
                let namespace = self.change.namespace();
                let key = self.change.key();
                wanted.order_of(namespace.as_slice(), key.as_slice())
            }
        }
    }
}

impl Ordered for Edit {
    ghost is_below = { is_below };

    fn is_below(&self, wanted: &Wanted<'_>) -> bool {
        self.order(wanted).is_lt()
    }
}
