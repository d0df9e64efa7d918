ghost use Rattle.std.specs.Prelude.{◌≡◌};
ghost use Rattle.cli_lines.specs.ConflictLines.{flag_name};

use rules::Flag;

/// The name of a flag in `peer.TxValidationCode`.
pub fn name_of(flag: Flag) -> &'static str
    ensures { result.now ≡ flag_name flag }
{
    match flag {
        Flag::Valid => "VALID",
        Flag::BadPayload => "BAD_PAYLOAD",
        Flag::BadCreatorSignature => "BAD_CREATOR_SIGNATURE",
        Flag::InvalidConfigTransaction => "INVALID_CONFIG_TRANSACTION",
        Flag::BadProposalTxId => "BAD_PROPOSAL_TXID",
        Flag::DuplicateTxId => "DUPLICATE_TXID",
        Flag::EndorsementPolicyFailure => "ENDORSEMENT_POLICY_FAILURE",
        Flag::MvccReadConflict => "MVCC_READ_CONFLICT",
        Flag::PhantomReadConflict => "PHANTOM_READ_CONFLICT",
        Flag::TargetChainNotFound => "TARGET_CHAIN_NOT_FOUND",
        Flag::BadRwset => "BAD_RWSET",
        Flag::InvalidChaincode => "INVALID_CHAINCODE",
    }
}
