ghost use Rattle.std.specs.Prelude.{◌≡◌, IsTrue, false};
ghost use Rattle.rules.specs.State.{is_same_key};
ghost use Rattle.candidates.specs.Gathering.{both_writes};

use crate::written_value::WrittenValue;
use policy::Policy;
use state_keys::StateKey;
use values::Shared;

/// What a transaction writes at a key: its value, its policy, or both.
#[derive(Drop)]
pub struct WrittenKey<'a> {
    pub key: StateKey<'a>,
    /// The new value, `Some(None)` if the key is deleted; `None` if the value isn't written.
    pub value: Option<Option<WrittenValue<'a>>>,
    /// The new policy, read once, `Some(None)` if it is removed; `None` if the policy isn't written.
    pub policy: Option<Option<Shared<Policy>>>,
}

impl<'a> WrittenKey<'a> {
    /// Takes over what another one has, if it is of the same key; otherwise nothing changes.
    pub(crate) fn join(&mut self, next: &mut WrittenKey<'a>) -> bool
        ensures same { result ≡ is_same_key next.old.key self.old.key }
        ensures joined { IsTrue result → self.new ≡ both_writes self.old next.old }
        ensures apart { result ≡ false → (self.new ≡ self.old) × (next.new ≡ next.old) }
    {
        if !next.key.is_same(&self.key) {
            return false;
        }
        self.value = self.value.take().or(next.value.take());
        self.policy = self.policy.take().or(next.policy.take());
        true
    }
}
