ghost use Rattle.std.specs.Prelude.{◌≡◌};
ghost use Rattle.policy.specs.declared.fault.PolicyFault.TheVariants.{Memory};

use std::alloc::{AllocError, AllocFailed};
use thiserror::Error;

/// Why a text is no policy: its first fault from the left, or want of memory. A place counts bytes from the
/// text's start; no clause speaks of places, tests do.
#[derive(Clone, Copy, Debug, PartialEq, Eq, Error)]
pub enum PolicyFault {
    /// More than 4,096 bytes, which is tested first, or a 257th principal.
    #[error("a policy of more than 4096 bytes or 256 principals")]
    TooLarge,
    /// The first token that can't stand where it does, or the text's length where it ends too early.
    #[error("the policy's byte {at} can't stand there")]
    Syntax { at: usize },
    /// The opening quote of what is no organization, dot and role.
    #[error("no organization and role in the quotes at the policy's byte {at}")]
    Role { at: usize },
    /// The closing parenthesis of an `OutOf` that asks for none of its members, or for more than it has.
    #[error("the gate that ends at the policy's byte {at} asks for none of its members or for too many")]
    Threshold { at: usize },
    /// The opening word of a gate inside 32 others.
    #[error("a gate inside 32 others at the policy's byte {at}")]
    TooDeep { at: usize },
    #[error("out of memory")]
    Memory,
}

impl From<AllocError> for PolicyFault {
    ghost from_gives = { λ _ e. e ≡ Memory };

    fn from(_e: AllocError) -> PolicyFault {
        PolicyFault::Memory
    }
}

impl<T: Drop> From<AllocFailed<T>> for PolicyFault {
    ghost from_gives = { λ _ e. e ≡ Memory };

    fn from(_e: AllocFailed<T>) -> PolicyFault {
        PolicyFault::Memory
    }
}
