//! Who signed a transaction or an update of a definition, whether they satisfy a policy, and which signer each of its
//! principals took.
//!
//! There are at most 64 signers, and a policy has at most 256 principals in 32 nested gates. A call takes
//! constant time and no memory where it says nothing else.
#![tactic(auto)]

mod assigning;
mod evaluation;
mod laws;
mod signer_list;
mod signing;
mod verify;

pub use assigning::assignment;
pub use evaluation::{satisfied, take_signer};
pub use laws::{
    each_signer_once, each_update_signer_once, flat_gates_are_monotone, one_evaluation,
};
pub use signer_list::Signers;
pub use signing::{signers, signers_with_body, update_signers};
pub use verify::Verify;
