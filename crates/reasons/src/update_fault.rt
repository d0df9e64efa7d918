use crate::policy_text_fault::PolicyTextFault;
use crate::shortfall::Shortfall;
use values::Name;

/// Why an update isn't valid: the first of these that holds.
#[derive(Drop)]
pub enum UpdateFault {
    /// Its block has more places than its own.
    NotAlone,
    /// The channel has no admin policy.
    NoAdminPolicy,
    /// The chaincode whose policy it gives has no definition.
    NoDefinition { chaincode: Name },
    /// Its text is no policy.
    NoPolicy(PolicyTextFault),
    /// Its signers don't satisfy the admin policy.
    AdminUnsatisfied(Shortfall),
}
