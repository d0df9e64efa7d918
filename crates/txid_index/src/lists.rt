ghost use Rattle.std.specs.Prelude.{◌≡◌};
ghost use Rattle.txid_index.specs.Lists.{use_in, IsThere};

use rules::NewUse;
use values::{Items, Shared};

/// Uses of ids that follow one another, as all indexes share them that have them.
pub(crate) type SharedUses = Shared<Items<NewUse>>;

/// Where a use stands: in which list, and where there.
#[derive(Clone, Copy)]
pub(crate) struct UsePlace {
    pub list: u32,
    pub index: u32,
}

impl UsePlace {
    /// The use that stands at this place of the lists.
    pub fn used<'a>(&self, lists: &'a [SharedUses]) -> &'a NewUse
        requires { IsThere lists.now self.now }
        ensures { result.now ≡ use_in lists.now self.now }
    {
        &lists[self.list as usize].get().as_slice()[self.index as usize]
    }
}
