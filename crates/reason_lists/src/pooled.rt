use verdicts::Piece;

/// The version of a key that was read, or that is there. Where the key was absent, `is_there` is false and the others are 0.
#[repr(C)]
#[derive(Clone, Copy)]
pub struct Seen {
    pub block: u64,
    pub tx: u32,
    pub is_there: bool,
}

/// An identity whose organization and label are pieces of a pool. The role is 0 for an admin, 1 for a client, 2 for a peer, 3 for an
/// orderer.
#[repr(C)]
#[derive(Clone, Copy)]
pub struct PooledIdentity {
    pub org: Piece,
    pub label: Piece,
    pub role: u8,
}

/// Why a transaction or an update has its flag. What the kind (`kinds`) doesn't speak of is a piece of no bytes, 0 or false.
#[repr(C)]
#[derive(Clone, Copy)]
pub struct PooledReason {
    /// Of a namespace, a chaincode or a channel.
    pub name: Piece,
    pub key: Piece,
    /// The bounds of a range, of which an empty end is none.
    pub start: Piece,
    pub end: Piece,
    /// The id that nonce and creator give.
    pub id: Piece,
    /// The canonical text of the policy that isn't satisfied.
    pub policy: Piece,
    /// The organization of the principal that is missing.
    pub missing_org: Piece,
    /// The version that was read, and the one that is there.
    pub read: Seen,
    pub there: Seen,
    /// The block of an id's first use.
    pub block: u64,
    /// The place of a range among those of its namespace, and of a result among the range's.
    pub range_place: usize,
    pub result_place: usize,
    /// Where its identities begin in their list: the signers, and behind them those whose signatures were refused.
    pub first_identity: usize,
    pub signers: usize,
    pub refused: usize,
    /// Where `has_tx`: the place of an id's first use, of the first transaction that wrote a key's policy, or of the last that wrote
    /// or deleted a key.
    pub tx: u32,
    pub flag: u8,
    pub kind: u8,
    /// The flag of an id's first use.
    pub used_flag: u8,
    /// Why a text is no policy: 1 too large, 2 syntax, 3 role, 4 threshold, 5 too deep.
    pub text_fault: u8,
    /// The role of the principal that is missing, as in an identity; 4 for a member.
    pub missing_role: u8,
    pub has_tx: bool,
    /// Whether the range was read to its end.
    pub exhausted: bool,
    pub has_missing: bool,
    /// Whether the same signers would do if each gate asked for members of any role last.
    pub another_order: bool,
}
