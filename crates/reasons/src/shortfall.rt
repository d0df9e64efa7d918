use policy::{Policy, Principal};
use transaction::OwnedIdentity;
use values::Items;

/// Signers who don't satisfy a policy, and what they lack.
#[derive(Drop)]
pub struct Shortfall {
    pub policy: Policy,
    pub signers: Items<OwnedIdentity>,
    /// The endorsers none of whose signatures the verifier accepts, each once.
    pub refused: Items<OwnedIdentity>,
    /// The first principal that was left without a signer: of a gate that isn't satisfied, that of its first
    /// member that isn't. There is one wherever the signers don't satisfy a policy that some text spells.
    pub missing: Option<Principal>,
    /// Whether the same signers would satisfy the policy if each of its gates asked for members of any role last.
    pub another_order: bool,
}
