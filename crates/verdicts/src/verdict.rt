ghost use Rattle.std.specs.Prelude.{◌≡◌};
ghost use Rattle.verdicts.specs.Said.{piece};

/// Bytes of a pool: where they begin, and how many they are.
#[repr(C)]
#[derive(Clone, Copy)]
pub struct Piece {
    pub at: usize,
    pub len: usize,
}

/// What is said of one signature, whose identity, message and bytes are pieces of one pool: whether it is accepted. The role is 0 for an
/// admin, 1 for a client, 2 for a peer, 3 for an orderer.
#[repr(C)]
#[derive(Clone, Copy)]
pub struct Verdict {
    pub org: Piece,
    pub label: Piece,
    pub message: Piece,
    pub signature: Piece,
    pub role: u8,
    pub accepted: bool,
}

/// The bytes of a piece. One that isn't inside the pool has none.
pub(crate) fn bytes_at(pool: &[u8], place: Piece) -> &[u8]
    ensures { result.now ≡ piece pool.now place }
{
    if place.at <= pool.len() && place.len <= pool.len() - place.at {
        &pool[place.at..place.at + place.len]
    } else {
        &[]
    }
}
