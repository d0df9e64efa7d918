ghost use Rattle.std.specs.Prelude.{◌≡◌, ◌==◌, ◌≤◌, List, length};
ghost use Rattle.transaction.specs.Limits.{max_endorsements};

use std::marker::Model;
use transaction::Identity;

/// The identities that signed a transaction or an update, at most 64. A contract sees the list of them.
#[derive(Drop)]
pub struct Signers<'a> {
    pub(crate) identities: Vec<Identity<'a>>,
}

impl<'a> Model for Signers<'a> {
    ghost use Rattle.std.specs.Prelude.{◌≤◌, List, length};
    ghost use Rattle.transaction.specs.Limits.{max_endorsements};
    ghost use Rattle.transaction.specs.declared.identity.Identity.{Identity};

    ghost Value = { List Identity };

    ghost view = { λ s. s.identities.items };

    ghost invariant = { λ s. length s.identities.items ≤ max_endorsements };
}

impl<'a> Signers<'a> {
    /// The identities, at most 64.
    pub fn as_slice(&self) -> &[Identity<'a>]
        ensures value { result.now ≡ self.now }
        ensures bound { length self.now ≤ max_endorsements }
    {
        self.identities.as_slice()
    }

    /// The number of identities.
    pub fn len(&self) -> usize
        ensures { result ≡ length self.now }
    {
        self.identities.len()
    }

    /// Whether nobody signed.
    pub fn is_empty(&self) -> bool
        ensures { result ≡ (length self.now == 0) }
    {
        self.identities.is_empty()
    }
}
