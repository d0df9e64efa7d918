//! Blocks with updates of the policy of `cc`, worked out by hand.

/// What the channel says of `cc`.
pub const FIRST_POLICY: &str = "OR('Org1.peer','Org2.peer')";

/// The channel's line for who may update.
pub const ADMIN: &str = "admin OR('Org1.admin')\n";

/// Valid where it is alone.
pub const UPDATE: &str = "update Org1:admin:a0 n2 cc OR('Org2.peer')\nendorse Org1:admin:a0\n";

/// A block of version 2: its script, the numbers of its flags, why its updates aren't valid, and the policy of `cc` behind it.
#[derive(Clone, Copy)]
pub struct UpdateBlock<'a> {
    pub script: &'a str,
    pub flags: &'a [u8],
    pub faults: &'a [&'a [u8]],
    pub policy: &'a str,
}

/// Such blocks, one behind the other, and the line that the channel has beside those of all chains.
#[derive(Clone, Copy)]
pub struct UpdateChain<'a> {
    pub line: &'a str,
    pub blocks: &'a [UpdateBlock<'a>],
}

/// Chains of one block that changes no definition.
pub fn refusals() -> &'static [UpdateChain<'static>] {
    &REFUSALS
}

/// All chains with updates, worked out by hand.
pub fn chains() -> &'static [UpdateChain<'static>] {
    &CHAINS
}

const NOT_ALONE: &[u8] = b"not alone";

const UNSATISFIED: &[u8] = b"OR('Org1.admin') by Org1.peer.p0";

static REFUSALS: [UpdateChain<'static>; 16] = [
    // beside an endorsed transaction
    UpdateChain {
        line: ADMIN,
        blocks: &[UpdateBlock {
            script: "\
update Org1:admin:a0 n2 cc OR('Org2.peer')
endorse Org1:admin:a0
tx Org1:client:c0 n3 cc
ns cc
write k v
endorse Org1:peer:p0
",
            flags: &[6, 0],
            faults: &[NOT_ALONE],
            policy: FIRST_POLICY,
        }],
    },
    UpdateChain {
        line: ADMIN,
        blocks: &[UpdateBlock {
            script: "\
tx Org1:client:c0 n3 cc
ns cc
write k v
endorse Org1:peer:p0
update Org1:admin:a0 n2 cc OR('Org2.peer')
endorse Org1:admin:a0
",
            flags: &[0, 6],
            faults: &[NOT_ALONE],
            policy: FIRST_POLICY,
        }],
    },
    // beside another update
    UpdateChain {
        line: ADMIN,
        blocks: &[UpdateBlock {
            script: "\
update Org1:admin:a0 n2 cc OR('Org2.peer')
endorse Org1:admin:a0
update Org1:admin:a0 n3 cc OR('Org2.peer')
endorse Org1:admin:a0
",
            flags: &[6, 6],
            faults: &[NOT_ALONE, NOT_ALONE],
            policy: FIRST_POLICY,
        }],
    },
    UpdateChain {
        line: ADMIN,
        blocks: &[UpdateBlock {
            script: "\
update Org1:admin:a0 n2 cc OR('Org2.peer')
endorse Org1:admin:a0
update Org1:admin:a0 n2 cc OR('Org2.peer')
endorse Org1:admin:a0
",
            flags: &[6, 9],
            faults: &[NOT_ALONE],
            policy: FIRST_POLICY,
        }],
    },
    // beside bytes that spell nothing
    UpdateChain {
        line: ADMIN,
        blocks: &[UpdateBlock {
            script: "update Org1:admin:a0 n2 cc OR('Org2.peer')\nendorse Org1:admin:a0\nraw 00\n",
            flags: &[6, 2],
            faults: &[NOT_ALONE],
            policy: FIRST_POLICY,
        }],
    },
    UpdateChain {
        line: ADMIN,
        blocks: &[UpdateBlock {
            script: "raw\nupdate Org1:admin:a0 n2 cc OR('Org2.peer')\nendorse Org1:admin:a0\n",
            flags: &[2, 6],
            faults: &[NOT_ALONE],
            policy: FIRST_POLICY,
        }],
    },
    // by another one than the admin
    UpdateChain {
        line: ADMIN,
        blocks: &[UpdateBlock {
            script: "update Org1:admin:a0 n2 cc OR('Org2.peer')\nendorse Org1:peer:p0\n",
            flags: &[6],
            faults: &[UNSATISFIED],
            policy: FIRST_POLICY,
        }],
    },
    UpdateChain {
        line: ADMIN,
        blocks: &[UpdateBlock {
            script: "update Org1:admin:a0 n2 cc OR('Org2.peer')\n",
            flags: &[6],
            faults: &[b"OR('Org1.admin') by"],
            policy: FIRST_POLICY,
        }],
    },
    // where nobody may
    UpdateChain {
        line: "",
        blocks: &[UpdateBlock {
            script: "update Org1:admin:a0 n2 cc OR('Org2.peer')\nendorse Org1:admin:a0\n",
            flags: &[6],
            faults: &[b"no admin"],
            policy: FIRST_POLICY,
        }],
    },
    // of another chaincode, and to what is no policy
    UpdateChain {
        line: ADMIN,
        blocks: &[UpdateBlock {
            script: "update Org1:admin:a0 n2 zz OR('Org2.peer')\nendorse Org1:admin:a0\n",
            flags: &[6],
            faults: &[b"no definition of zz"],
            policy: FIRST_POLICY,
        }],
    },
    UpdateChain {
        line: ADMIN,
        blocks: &[UpdateBlock {
            script: "update Org1:admin:a0 n2 cc AND(\nendorse Org1:admin:a0\n",
            flags: &[6],
            faults: &[b"no policy: Syntax"],
            policy: FIRST_POLICY,
        }],
    },
    UpdateChain {
        line: ADMIN,
        blocks: &[UpdateBlock {
            script: "update Org1:admin:a0 n2 cc OutOf(2,'Org1.peer')\nendorse Org1:admin:a0\n",
            flags: &[6],
            faults: &[b"no policy: Threshold"],
            policy: FIRST_POLICY,
        }],
    },
    // of several faults the first one
    UpdateChain {
        line: "",
        blocks: &[UpdateBlock {
            script: "update Org1:admin:a0 n2 zz AND(\nupdate Org1:admin:a0 n3 zz AND(\n",
            flags: &[6, 6],
            faults: &[NOT_ALONE, NOT_ALONE],
            policy: FIRST_POLICY,
        }],
    },
    UpdateChain {
        line: "",
        blocks: &[UpdateBlock {
            script: "update Org1:admin:a0 n2 zz AND(\n",
            flags: &[6],
            faults: &[b"no admin"],
            policy: FIRST_POLICY,
        }],
    },
    UpdateChain {
        line: ADMIN,
        blocks: &[UpdateBlock {
            script: "update Org1:admin:a0 n2 zz AND(\n",
            flags: &[6],
            faults: &[b"no definition of zz"],
            policy: FIRST_POLICY,
        }],
    },
    UpdateChain {
        line: ADMIN,
        blocks: &[UpdateBlock {
            script: "update Org1:admin:a0 n2 cc AND(\n",
            flags: &[6],
            faults: &[b"no policy: Syntax"],
            policy: FIRST_POLICY,
        }],
    },
];

static CHAINS: [UpdateChain<'static>; 5] = [
    // It counts from the next block on.
    UpdateChain {
        line: ADMIN,
        blocks: &[
            UpdateBlock {
                script: "tx Org1:client:c0 n1 cc\nns cc\nwrite k v\nendorse Org1:peer:p0\n",
                flags: &[0],
                faults: &[],
                policy: FIRST_POLICY,
            },
            UpdateBlock {
                script: UPDATE,
                flags: &[0],
                faults: &[],
                policy: "OR('Org2.peer')",
            },
            UpdateBlock {
                script: "\
tx Org1:client:c0 n3 cc
ns cc
write k v
endorse Org1:peer:p0
tx Org1:client:c0 n4 cc
ns cc
write k v
endorse Org2:peer:q0
",
                flags: &[10, 0],
                faults: &[],
                policy: "OR('Org2.peer')",
            },
        ],
    },
    // An id that was used goes before all that an update can lack.
    UpdateChain {
        line: ADMIN,
        blocks: &[
            UpdateBlock {
                script: "tx Org1:admin:a0 n2 cc\nns cc\nwrite k v\nendorse Org1:peer:p0\n",
                flags: &[0],
                faults: &[],
                policy: FIRST_POLICY,
            },
            UpdateBlock {
                script: UPDATE,
                flags: &[9],
                faults: &[],
                policy: FIRST_POLICY,
            },
            UpdateBlock {
                script: "update Org1:admin:a0 n2 zz AND(\nraw\n",
                flags: &[9, 2],
                faults: &[],
                policy: FIRST_POLICY,
            },
        ],
    },
    // One that isn't valid uses its id.
    UpdateChain {
        line: ADMIN,
        blocks: &[
            UpdateBlock {
                script: "update Org1:admin:a0 n2 cc OR('Org2.peer')\nendorse Org1:peer:p0\n",
                flags: &[6],
                faults: &[UNSATISFIED],
                policy: FIRST_POLICY,
            },
            UpdateBlock {
                script: UPDATE,
                flags: &[9],
                faults: &[],
                policy: FIRST_POLICY,
            },
        ],
    },
    // What nobody satisfies is mended by another update, since the admin's policy stays.
    UpdateChain {
        line: ADMIN,
        blocks: &[
            UpdateBlock {
                script: "update Org1:admin:a0 n2 cc AND('Org9.peer', 'Org2.peer')\nendorse Org1:admin:a0\n",
                flags: &[0],
                faults: &[],
                policy: "AND('Org9.peer','Org2.peer')",
            },
            UpdateBlock {
                script: "tx Org1:client:c0 n3 cc\nns cc\nwrite k v\nendorse Org2:peer:q0\n",
                flags: &[10],
                faults: &[],
                policy: "AND('Org9.peer','Org2.peer')",
            },
            UpdateBlock {
                script: "update Org1:admin:a0 n4 cc OutOf(01, 'Org2.peer')\nendorse Org1:admin:a0\n",
                flags: &[0],
                faults: &[],
                policy: "OR('Org2.peer')",
            },
            UpdateBlock {
                script: "tx Org1:client:c0 n5 cc\nns cc\nwrite k v\nendorse Org2:peer:q0\n",
                flags: &[0],
                faults: &[],
                policy: "OR('Org2.peer')",
            },
        ],
    },
    // The policy that a key has stays.
    UpdateChain {
        line: ADMIN,
        blocks: &[
            UpdateBlock {
                script: "\
tx Org1:client:c0 n1 cc
ns cc
write k v
write j v
policy k 'Org1.peer'
endorse Org1:peer:p0
",
                flags: &[0],
                faults: &[],
                policy: FIRST_POLICY,
            },
            UpdateBlock {
                script: UPDATE,
                flags: &[0],
                faults: &[],
                policy: "OR('Org2.peer')",
            },
            UpdateBlock {
                script: "\
tx Org1:client:c0 n3 cc
ns cc
write k v
endorse Org1:peer:p0
tx Org1:client:c0 n4 cc
ns cc
write k v
endorse Org2:peer:q0
tx Org1:client:c0 n5 cc
ns cc
write j v
endorse Org1:peer:p0
tx Org1:client:c0 n6 cc
ns cc
write j v
endorse Org2:peer:q0
",
                flags: &[0, 10, 10, 0],
                faults: &[],
                policy: "OR('Org2.peer')",
            },
        ],
    },
];
