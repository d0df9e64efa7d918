ghost use Rattle.std.specs.Prelude.{◌≡◌, Some, IsTrue};
ghost use Rattle.std.specs.Coded.{codes};
ghost use Rattle.policy.specs.Meaning.{policy_of};
ghost use Rattle.policy.specs.Tree.{tree_code};
ghost use Rattle.rules.specs.Effect.{written_keys};
ghost use Rattle.rules.specs.ReadWriteSets.{is_in_form};
ghost use Rattle.plain.specs.Keys.{keys_of};

use crate::state_key::StateKey;
use policy::Policy;
use policy_eval::Signers;
use rules::EarlyFlag;
use transaction::{Tx, Update};

/// A transaction whose flag the rules on the state decide.
#[derive(Drop)]
pub(crate) struct OpenTx<'a> {
    pub tx: Tx<'a>,
    pub signers: Signers<'a>,
    /// The keys that it writes, by value, delete or policy.
    pub written: Vec<StateKey<'a>>,
    ghost in_form: { IsTrue (is_in_form tx) },
    ghost gathered: { keys_of written.items ≡ written_keys tx },
}

/// An update whose flag the admin policy decides.
#[derive(Drop)]
pub(crate) struct OpenUpdate<'a> {
    pub update: Update<'a>,
    pub signers: Signers<'a>,
    /// What the update's text spells.
    pub policy: Policy,
    ghost spelled: { policy_of update.policy ≡ Some policy } by { Prim.hlevel (codes, tree_code) },
}

/// What a transaction or an update is before the rules on the state are asked.
#[derive(Drop)]
pub(crate) enum Candidate<'a> {
    Flagged(EarlyFlag),
    Open(OpenTx<'a>),
    Updates(OpenUpdate<'a>),
}
