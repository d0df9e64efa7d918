ghost use Rattle.std.specs.Prelude.{◌≡◌};
ghost use Rattle.rules.specs.Flags.{number_of, flag_numbered, is_valid};

/// What validation says of a transaction: a name and number of Fabric's `peer.TxValidationCode`. They stand
/// here by number, and are tested in the order that the definitions of candidates and of the fold give.
#[derive(Clone, Copy, Debug, PartialEq, Eq)]
pub enum Flag {
    /// Its writes are applied.
    Valid,
    /// The bytes are neither a transaction nor, in a block of version 2, an update.
    BadPayload,
    /// The verifier refuses the creator's signature.
    BadCreatorSignature,
    /// An update of a chaincode's policy that isn't alone in its block, or is of a channel without an admin policy or a chaincode
    /// without a policy, or whose text spells none, or whose signers don't satisfy the admin policy.
    InvalidConfigTransaction,
    /// The id isn't that of the nonce and the creator.
    BadProposalTxId,
    /// The id was used before: by an earlier transaction or update for this channel, with a good creator's
    /// signature and its own id, whatever its flag.
    DuplicateTxId,
    /// A policy isn't satisfied, or the policy of a key that it writes was written earlier in the block by a
    /// transaction that passed this check.
    EndorsementPolicyFailure,
    /// A key that was read has another version, or was read as absent and has a row, or the other way round.
    MvccReadConflict,
    /// A range has other keys or versions than those that were read.
    PhantomReadConflict,
    /// It is for another channel.
    TargetChainNotFound,
    /// The read and write sets aren't in form.
    BadRwset,
    /// The named chaincode, or a namespace with writes, has no definition.
    InvalidChaincode,
}

impl Flag {
    /// Its number in `peer.TxValidationCode`.
    pub fn number(self) -> u8
        ensures { result ≡ number_of self }
    {
        match self {
            Flag::Valid => 0,
            Flag::BadPayload => 2,
            Flag::BadCreatorSignature => 4,
            Flag::InvalidConfigTransaction => 6,
            Flag::BadProposalTxId => 8,
            Flag::DuplicateTxId => 9,
            Flag::EndorsementPolicyFailure => 10,
            Flag::MvccReadConflict => 11,
            Flag::PhantomReadConflict => 12,
            Flag::TargetChainNotFound => 14,
            Flag::BadRwset => 22,
            Flag::InvalidChaincode => 25,
        }
    }

    /// The flag of a number, if it is that of one.
    pub fn numbered(number: u64) -> Option<Flag>
        ensures { result ≡ flag_numbered number }
    {
        match number {
            0 => Some(Flag::Valid),
            2 => Some(Flag::BadPayload),
            4 => Some(Flag::BadCreatorSignature),
            6 => Some(Flag::InvalidConfigTransaction),
            8 => Some(Flag::BadProposalTxId),
            9 => Some(Flag::DuplicateTxId),
            10 => Some(Flag::EndorsementPolicyFailure),
            11 => Some(Flag::MvccReadConflict),
            12 => Some(Flag::PhantomReadConflict),
            14 => Some(Flag::TargetChainNotFound),
            22 => Some(Flag::BadRwset),
            25 => Some(Flag::InvalidChaincode),
            _ => None,
        }
    }

    /// Whether it is VALID.
    pub fn is_valid(self) -> bool
        ensures { result ≡ is_valid self }
    {
        self == Flag::Valid
    }
}
