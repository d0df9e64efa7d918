//! Small blocks, whose flags were worked out by hand.

use crate::building::RowCase;

/// A block behind a state, with the numbers of its flags.
#[derive(Clone, Copy)]
pub struct BlockCase {
    pub rows: &'static [RowCase<'static>],
    pub script: &'static str,
    pub flags: &'static [u8],
}

// The example of Fabric's documentation.
const READERS_AND_WRITERS: BlockCase = BlockCase {
    rows: &[
        RowCase {
            key: b"k1",
            policy: None,
        },
        RowCase {
            key: b"k2",
            policy: None,
        },
        RowCase {
            key: b"k3",
            policy: None,
        },
        RowCase {
            key: b"k4",
            policy: None,
        },
        RowCase {
            key: b"k5",
            policy: None,
        },
    ],
    script: "
tx Org1:client:c0 n0 cc
ns cc
write k1 v
write k2 v
endorse Org1:peer:p0

tx Org1:client:c0 n1 cc
ns cc
read k1 0 0
write k3 v
endorse Org1:peer:p0

tx Org1:client:c0 n2 cc
ns cc
write k2 v
endorse Org1:peer:p0

tx Org1:client:c0 n3 cc
ns cc
read k2 0 0
write k2 v
endorse Org1:peer:p0

tx Org1:client:c0 n4 cc
ns cc
read k5 0 0
write k6 v
endorse Org1:peer:p0
",
    flags: &[0, 11, 0, 11, 0],
};

// The policy of a key counts as written although its writer read what isn't so.
const STALE_POLICY_WRITER: BlockCase = BlockCase {
    rows: &[
        RowCase {
            key: b"k",
            policy: None,
        },
        RowCase {
            key: b"x",
            policy: None,
        },
    ],
    script: "
tx Org1:client:c0 n0 cc
ns cc
policy k 'Org1.peer'
read x absent
endorse Org1:peer:p0

tx Org1:client:c0 n1 cc
ns cc
write k v
endorse Org1:peer:p0
",
    flags: &[11, 10],
};

const READ_OF_THE_BLOCK: BlockCase = BlockCase {
    rows: &[],
    script: "
tx Org1:client:c0 n0 cc
ns cc
write k v
endorse Org1:peer:p0

tx Org1:client:c0 n1 cc
ns cc
read k 1 0
endorse Org1:peer:p0
",
    flags: &[0, 0],
};

const READ_OF_WHAT_FAILED: BlockCase = BlockCase {
    rows: &[],
    script: "
tx Org1:client:c0 n0 cc
ns cc
write k v

tx Org1:client:c0 n1 cc
ns cc
read k 1 0
endorse Org1:peer:p0
",
    flags: &[10, 11],
};

const PHANTOM: BlockCase = BlockCase {
    rows: &[
        RowCase {
            key: b"a",
            policy: None,
        },
        RowCase {
            key: b"c",
            policy: None,
        },
    ],
    script: "
tx Org1:client:c0 n0 cc
ns cc
write b v
endorse Org1:peer:p0

tx Org1:client:c0 n1 cc
ns cc
range a d all
result a 0 0
result c 0 0
endorse Org1:peer:p0
",
    flags: &[0, 12],
};

// The flags of the first two are decided before any check.
const FLAGGED: BlockCase = BlockCase {
    rows: &[],
    script: "
raw 00

tx Org1:client:c0 n1 cc
ns zz
write k v
endorse Org1:peer:p0

tx Org1:client:c0 n2 cc
ns cc
write k v
endorse Org1:peer:p0
",
    flags: &[2, 25, 0],
};

// The admin policy asks for a peer of each organization.
const UPDATE: BlockCase = BlockCase {
    rows: &[],
    script: "
update Org1:client:c0 n0 cc 'Org2.peer'
endorse Org1:peer:p0
endorse Org2:peer:q0
",
    flags: &[0],
};

// The policy of its chaincode is satisfied, and the admin policy isn't.
const REFUSED_UPDATE: BlockCase = BlockCase {
    rows: &[],
    script: "
update Org1:client:c0 n0 cc 'Org2.peer'
endorse Org1:peer:p0
",
    flags: &[6],
};

/// Transactions that read what others write.
pub fn readers_and_writers() -> &'static BlockCase {
    &blocks()[0]
}

/// The block with flags from before the checks.
pub fn flagged() -> &'static BlockCase {
    &blocks()[5]
}

/// Updates, each alone in its block.
pub fn updates() -> &'static [BlockCase; 2] {
    &UPDATES
}

/// Blocks in which checks wait for one another.
pub fn blocks() -> &'static [BlockCase; 6] {
    &BLOCKS
}

static BLOCKS: [BlockCase; 6] = [
    READERS_AND_WRITERS,
    STALE_POLICY_WRITER,
    READ_OF_THE_BLOCK,
    READ_OF_WHAT_FAILED,
    PHANTOM,
    FLAGGED,
];

static UPDATES: [BlockCase; 2] = [UPDATE, REFUSED_UPDATE];
