ghost use Rattle.std.specs.Prelude.{◌≡◌, ◌↔◌, IsTrue};
ghost use Rattle.std.specs.Option.{option_copied};
ghost use Rattle.std.specs.FinMap.{get};
ghost use Rattle.rules.specs.State.{version_in};
ghost use Rattle.plain.specs.Keys.{key_of};
ghost use Rattle.plain.specs.StateNow.{state_now};

use crate::state_key::StateKey;
use crate::world::{World, row_after};
use rules::{Change, Row};
use transaction::Version;

/// The state within a block: that of the world before it, and the changes since.
#[derive(Clone, Copy)]
pub(crate) struct StateNow<'a> {
    pub world: &'a World,
    pub changes: &'a [Change],
}

impl<'a> StateNow<'a> {
    /// The row of a key. Linear in the changes that the world ever made, and in those since.
    pub fn row(self, key: &StateKey<'_>) -> Option<&'a Row>
        ensures { option_copied result ≡ get (state_now self.entry) (key_of key.now) }
    {
        row_after(self.world.row_at(key), self.changes, key)
    }

    /// The version of a key's row; none where it has no row. Costs what `row` costs.
    pub fn version(self, key: &StateKey<'_>) -> Option<Version>
        ensures { result ≡ version_in (state_now self.entry) (key_of key.now) }
    {
        match self.row(key) {
            None => None,
            Some(row) => Some(row.version),
        }
    }
}
