ghost use Rattle.std.specs.Prelude.{◌≡◌};
ghost use Rattle.rules.specs.Flags.{flag_of};

use crate::flag::Flag;

/// A flag that is given before the rules on the state are asked.
#[derive(Clone, Copy, Debug, PartialEq, Eq)]
pub enum EarlyFlag {
    /// The bytes are neither a transaction nor, in a block of version 2, an update.
    BadPayload,
    /// It is for another channel.
    TargetChainNotFound,
    /// The verifier refuses the creator's signature.
    BadCreatorSignature,
    /// The id isn't that of the nonce and the creator.
    BadProposalTxId,
    /// The id was used before.
    DuplicateTxId,
    /// An update that isn't alone in its block, or is of a channel without an admin policy or a chaincode without a policy, or
    /// whose text spells none.
    InvalidConfigTransaction,
    /// The read and write sets aren't in form.
    BadRwset,
    /// The named chaincode, or a namespace with writes, has no definition.
    InvalidChaincode,
}

impl EarlyFlag {
    /// The flag that a place with this fault has.
    pub fn flag(self) -> Flag
        ensures { result ≡ flag_of self }
    {
        match self {
            EarlyFlag::BadPayload => Flag::BadPayload,
            EarlyFlag::TargetChainNotFound => Flag::TargetChainNotFound,
            EarlyFlag::BadCreatorSignature => Flag::BadCreatorSignature,
            EarlyFlag::BadProposalTxId => Flag::BadProposalTxId,
            EarlyFlag::DuplicateTxId => Flag::DuplicateTxId,
            EarlyFlag::InvalidConfigTransaction => Flag::InvalidConfigTransaction,
            EarlyFlag::BadRwset => Flag::BadRwset,
            EarlyFlag::InvalidChaincode => Flag::InvalidChaincode,
        }
    }
}
