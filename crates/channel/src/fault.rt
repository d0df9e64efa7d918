//! Why a channel text was not read.

ghost use Rattle.std.specs.Prelude.{◌≡◌, MatchOption, Some};
ghost use Rattle.policy.specs.Kind.{kind_of};
ghost use Rattle.channel.specs.declared.fault.ChannelFault.TheVariants.{Memory};
ghost use Rattle.channel.specs.Fault.{fault_of, no_policy};

use policy::PolicyFault;
use std::alloc::AllocError;
use thiserror::Error;

/// The first line of a channel text that has a fault and, if a line has several, the one that is listed first here; or
/// that no line has one and the channel has no name; or that memory ran out on the way. Lines count from 1.
#[derive(Clone, Copy, Debug, PartialEq, Eq, Error)]
pub enum ChannelFault {
    /// The line isn't empty or a comment, and is none of `channel NAME`, `chaincode NAME POLICY` and `admin POLICY`.
    #[error("line {0}: none of `channel NAME`, `chaincode NAME POLICY` and `admin POLICY`")]
    Line(u64),
    /// An earlier line named the channel, defined the same chaincode, or set the admin policy.
    #[error("line {0}: repeats an earlier line's channel, chaincode or admin")]
    Repeated(u64),
    /// POLICY is no policy. Its places count bytes from where POLICY begins.
    #[error("line {0}: {1}")]
    Policy(u64, PolicyFault),
    /// 256 chaincodes are defined already.
    #[error("line {0}: more than 256 chaincodes")]
    TooMany(u64),
    #[error("no line names the channel")]
    NoChannel,
    #[error("out of memory")]
    Memory,
}

impl ChannelFault {
    /// Of the policy on a line. Out of memory is no fault of the line.
    pub(crate) fn of_policy(line: u64, fault: PolicyFault) -> ChannelFault
        ensures { MatchOption (kind_of fault) (result ≡ Memory) (λ f. fault_of result ≡ Some (no_policy line f)) }
    {
        match fault {
            PolicyFault::Memory => ChannelFault::Memory,
            _ => ChannelFault::Policy(line, fault),
        }
    }
}

impl From<AllocError> for ChannelFault {
    ghost from_gives = { λ _ fault. fault ≡ Memory };

    fn from(_: AllocError) -> ChannelFault {
        ChannelFault::Memory
    }
}
