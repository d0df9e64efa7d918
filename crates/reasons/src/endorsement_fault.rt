use crate::policy_owner::PolicyOwner;
use crate::shortfall::Shortfall;
use values::{Key, Name};

/// Why the signers of a transaction may not write what it writes: the first written key that they may not
/// write, or no key.
#[derive(Drop)]
pub enum EndorsementFault {
    /// The key's policy was written by an earlier transaction of the block that passed the endorsement
    /// rule, first by the one at this place.
    Touched {
        namespace: Name,
        key: Key,
        place: u32,
    },
    /// The signers don't satisfy the policy that governs the key.
    Unsatisfied {
        namespace: Name,
        key: Key,
        owner: PolicyOwner,
        shortfall: Shortfall,
    },
    /// The signers don't satisfy the policy of the chaincode that is named, in whose namespace nothing is
    /// written.
    ChaincodeUnsatisfied {
        chaincode: Name,
        shortfall: Shortfall,
    },
}
