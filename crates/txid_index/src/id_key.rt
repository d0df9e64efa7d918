ghost use Rattle.std.specs.Prelude.{◌≡◌, ◌∷◌, []};
ghost use Rattle.std.specs.Str.{bytes_eq};
ghost use Rattle.std.specs.Cmp.{partial_equiv_from_equiv};
ghost use Rattle.std.specs.Cmp.Lexicographic.{nat_list_eq_equiv};
ghost use Rattle.std.specs.Cmp.Rules.{hashing};
ghost use Rattle.std.proofs.Common.{rules};

use std::hash::{Hash, Hasher};
use std::marker::Model;
use transaction::TxId;

/// An id in a map, hashed as one string and not byte by byte. A contract sees the id.
#[derive(Drop)]
pub(crate) struct IdKey {
    id: TxId,
}

impl Model for IdKey {
    ghost use Rattle.std.specs.Prelude.{ℕ, List};

    ghost Value = { List ℕ };

    ghost view = { λ k. k.id };
}

impl IdKey {
    /// The id, as a key of the map.
    pub fn new(id: &TxId) -> IdKey
        ensures { result ≡ id.now }
    {
        IdKey { id: *id }
    }
}

impl PartialEq for IdKey {
    ghost eq = { bytes_eq };

    ghost laws = { partial_equiv_from_equiv nat_list_eq_equiv };

    fn eq(&self, other: &IdKey) -> bool {
        self.id == other.id
    }
}

impl Eq for IdKey {
    ghost laws = { nat_list_eq_equiv };
}

impl Hash for IdKey {
    ghost hash_input = { λ id. id ∷ [] };

    ghost respects_eq = { Prim.search (hashing, rules) };

    fn hash<H: Hasher>(&self, state: &mut H) {
        state.write(&self.id);
    }
}
