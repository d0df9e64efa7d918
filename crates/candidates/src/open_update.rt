ghost use Rattle.std.specs.Prelude.{◌≡◌, Some};
ghost use Rattle.std.specs.Coded.{codes};
ghost use Rattle.policy.specs.Tree.{tree_code};
ghost use Rattle.policy.specs.Meaning.{policy_of};

use policy::Policy;
use policy_eval::Signers;
use transaction::Update;

/// An update whose flag the admin policy decides.
#[derive(Drop)]
pub struct OpenUpdate<'a> {
    pub update: Update<'a>,
    pub signers: Signers<'a>,
    /// The policy that the update's text encodes.
    pub policy: Policy,
    ghost spelled: { policy_of update.policy ≡ Some policy } by { Prim.hlevel (codes, tree_code) },
}

impl<'a> OpenUpdate<'a> {
    /// An update with its signers and the policy that its text encodes.
    pub fn new(update: Update<'a>, signers: Signers<'a>, policy: Policy) -> OpenUpdate<'a>
        requires { policy_of update.policy ≡ Some policy }
        ensures update { result.update ≡ update.entry }
        ensures signers { result.signers ≡ signers.entry }
        ensures policy { result.policy ≡ policy }
    {
        OpenUpdate {
            update,
            signers,
            policy,
        }
    }
}
