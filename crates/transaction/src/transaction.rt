use crate::identity::Identity;
use crate::limits::ID_BYTES;
use values::{BoundRef, Items, KeyRef, NameRef, Slice};

/// A transaction's id: SHA-256 of its nonce and its creator's identity bytes, in hexadecimal digits.
pub type TxId = [u8; ID_BYTES];

/// The place of the transaction that wrote a row last.
#[derive(Clone, Copy, Debug, PartialEq, Eq)]
pub struct Version {
    pub block: u64,
    pub tx: u32,
}

/// A key that was read, with its version, or none where it was absent.
#[derive(Drop)]
pub struct Read<'a> {
    pub key: KeyRef<'a>,
    pub version: Option<Version>,
}

/// A key with its version, as a range query found it.
#[derive(Drop)]
pub struct KeyVersion<'a> {
    pub key: KeyRef<'a>,
    pub version: Version,
}

/// A range query with its raw results, from the start to before the end, which is unbounded where it
/// is empty.
#[derive(Drop)]
pub struct Range<'a> {
    pub start: BoundRef<'a>,
    pub end: BoundRef<'a>,
    /// Whether the query was read to its end.
    pub exhausted: bool,
    pub results: Items<KeyVersion<'a>>,
}

/// A key with its new value, or none where it is deleted.
#[derive(Drop)]
pub struct Write<'a> {
    pub key: KeyRef<'a>,
    pub value: Option<Slice<'a>>,
}

/// A key with the text of its new policy, or none where its policy is removed.
#[derive(Drop)]
pub struct PolicyWrite<'a> {
    pub key: KeyRef<'a>,
    pub policy: Option<Slice<'a>>,
}

/// What a transaction read and wrote in one namespace.
#[derive(Drop)]
pub struct NsSet<'a> {
    pub name: NameRef<'a>,
    pub reads: Items<Read<'a>>,
    pub ranges: Items<Range<'a>>,
    pub writes: Items<Write<'a>>,
    pub policy_writes: Items<PolicyWrite<'a>>,
}

/// An endorser with its signature.
#[derive(Drop)]
pub struct Endorsement<'a> {
    pub endorser: Identity<'a>,
    pub signature: Slice<'a>,
}

/// A transaction: what a chaincode read and wrote, who asked for it and who endorsed it.
#[derive(Drop)]
pub struct Tx<'a> {
    pub channel: NameRef<'a>,
    pub id: TxId,
    pub creator: Identity<'a>,
    pub nonce: Slice<'a>,
    /// The named chaincode.
    pub chaincode: NameRef<'a>,
    pub namespaces: Items<NsSet<'a>>,
    pub endorsements: Items<Endorsement<'a>>,
    /// The creator's, over all that is before it.
    pub signature: Slice<'a>,
}
