ghost use Rattle.std.specs.Prelude.{◌≡◌};
ghost use Rattle.reasons.specs.Reason.{flag_of};

use crate::endorsement_fault::EndorsementFault;
use crate::form_fault::FormFault;
use crate::id_use::IdUse;
use crate::phantom_key::PhantomKey;
use crate::stale_read::StaleRead;
use crate::update_fault::UpdateFault;
use rules::Flag;
use transaction::{OwnedIdentity, TxId};
use values::Name;

/// Why a transaction or an update has its flag.
#[derive(Drop)]
pub enum Reason {
    /// 0: nothing is wrong with it.
    NoFault,
    /// 2: its bytes are neither a transaction nor, in a block of version 2, an update.
    NoTransaction,
    /// 4: the verifier refuses the signature of its creator.
    BadSignature { creator: OwnedIdentity },
    /// 6: it is an update that may not be made, or that its signers may not make.
    InvalidUpdate(UpdateFault),
    /// 8: its nonce and creator give another id.
    OtherId { wanted: TxId },
    /// 9: its id was used before, there first.
    UsedId(IdUse),
    /// 10: its signers may not write what it writes.
    NotEndorsed(EndorsementFault),
    /// 11: a read doesn't hold.
    ReadConflict(StaleRead),
    /// 12: a range doesn't hold.
    PhantomConflict(PhantomKey),
    /// 14: it is for another channel, the one named here.
    OtherChannel { channel: Name },
    /// 22: its read and write sets aren't in form.
    NotInForm(FormFault),
    /// 25: the chaincode that it names, or a namespace in which it has writes, has no definition.
    Undefined { chaincode: Name },
}

impl Reason {
    /// The flag that it is the reason of.
    pub fn flag(&self) -> Flag
        ensures { result ≡ flag_of self.now }
    {
        match self {
            Reason::NoFault => Flag::Valid,
            Reason::NoTransaction => Flag::BadPayload,
            Reason::BadSignature { .. } => Flag::BadCreatorSignature,
            Reason::InvalidUpdate(_) => Flag::InvalidConfigTransaction,
            Reason::OtherId { .. } => Flag::BadProposalTxId,
            Reason::UsedId(_) => Flag::DuplicateTxId,
            Reason::NotEndorsed(_) => Flag::EndorsementPolicyFailure,
            Reason::ReadConflict(_) => Flag::MvccReadConflict,
            Reason::PhantomConflict(_) => Flag::PhantomReadConflict,
            Reason::OtherChannel { .. } => Flag::TargetChainNotFound,
            Reason::NotInForm(_) => Flag::BadRwset,
            Reason::Undefined { .. } => Flag::InvalidChaincode,
        }
    }
}
