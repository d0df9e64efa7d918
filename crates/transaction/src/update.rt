use crate::identity::Identity;
use crate::transaction::{Endorsement, TxId};
use values::{Items, NameRef, Slice};

/// An update of a chaincode's definition: the policy that it is to have, who asked for it and who endorsed it.
#[derive(Drop)]
pub struct Update<'a> {
    pub channel: NameRef<'a>,
    pub id: TxId,
    pub creator: Identity<'a>,
    pub nonce: Slice<'a>,
    /// The chaincode's.
    pub namespace: NameRef<'a>,
    /// The text of the new policy.
    pub policy: Slice<'a>,
    pub endorsements: Items<Endorsement<'a>>,
    /// The creator's, over all that is before it.
    pub signature: Slice<'a>,
}
