//! Commit hashes of worked chains, by the bytes that are hashed, which were worked out by hand; and those of chains that differ in
//! one thing.

use crate::scripted::ScriptedPeer;
use block::BlockVersion;
use header_hash::commit_hash;
use std::alloc::Global;
use test_support::{Failed, check};
use values::Hash;

/// A block's script, its flags, and what is hashed of it behind the commit hash before it.
#[derive(Clone, Copy)]
struct Told {
    script: &'static str,
    flags: &'static [u8],
    bytes: &'static [u8],
}

/// The blocks of a channel that has this line more.
#[derive(Clone, Copy)]
struct Chain {
    version: BlockVersion,
    line: &'static str,
    blocks: &'static [Told],
}

fn chains() -> &'static [(&'static str, Chain)] {
    &CHAINS
}

const EMPTY_OF_VERSION_2: Told = Told {
    script: "",
    flags: &[],
    bytes: b"\x02\0\0\0\0\0\0\0\0\0\0\0\0\0\0\0\0\0",
};

static CHAINS: [(&str, Chain); 5] = [
    (
        "the empty block",
        Chain {
            version: BlockVersion::V1,
            line: "",
            blocks: &[Told {
                script: "",
                flags: &[],
                bytes: b"\x01\0\0\0\0\0\0\0\0\0\0\0\0\0\0\0\0\0",
            }],
        },
    ),
    (
        "a row with a policy",
        Chain {
            version: BlockVersion::V1,
            line: "",
            blocks: &[Told {
                script: "\
tx Org1:client:c0 n1 cc
ns cc
write k1 v1
policy k1 AND('Org1.peer','Org2.peer')
endorse Org1:peer:p0
",
                flags: &[0],
                bytes: b"\x01\0\0\0\0\0\0\0\0\0\0\0\x01\0\0\0\0\x01\
                \x02cc\0\x02k1\x01\0\0\0\0\0\0\0\0\0\0\0\0\0\0\0\x02v1\0\x1cAND('Org1.peer','Org2.peer')\0",
            }],
        },
    ),
    (
        "an update",
        Chain {
            version: BlockVersion::V2,
            line: "admin 'Org1.admin'\n",
            blocks: &[
                EMPTY_OF_VERSION_2,
                Told {
                    script: "update Org1:client:c0 n1 cc OR('Org2.peer')\nendorse Org1:admin:a\n",
                    flags: &[0],
                    bytes: b"\x02\0\0\0\0\0\0\0\x01\0\0\0\x01\0\0\0\0\0\x01\x02cc\0\x0fOR('Org2.peer')",
                },
            ],
        },
    ),
    (
        "put and deleted in one block",
        Chain {
            version: BlockVersion::V1,
            line: "",
            blocks: &[Told {
                script: "\
tx Org1:client:c0 n1 cc
ns cc
write k v
endorse Org1:peer:p0
tx Org1:client:c0 n2 cc
ns cc
delete k
endorse Org1:peer:p0
",
                flags: &[0, 0],
                bytes: b"\x01\0\0\0\0\0\0\0\0\0\0\0\x02\0\0\0\0\0\0\0",
            }],
        },
    ),
    (
        "the value that is there, and a policy that isn't",
        Chain {
            version: BlockVersion::V1,
            line: "",
            blocks: &[
                Told {
                    script: "tx Org1:client:c0 n1 cc\nns cc\nwrite b v\nwrite a v\nendorse Org1:peer:p0\n",
                    flags: &[0],
                    bytes: b"\x01\0\0\0\0\0\0\0\0\0\0\0\x01\0\0\0\0\x02\
                    \x02cc\0\x01a\x01\0\0\0\0\0\0\0\0\0\0\0\0\0\0\0\x01v\0\0\
                    \x02cc\0\x01b\x01\0\0\0\0\0\0\0\0\0\0\0\0\0\0\0\x01v\0\0\0",
                },
                Told {
                    script: "\
tx Org1:client:c0 n2 cc
ns cc
write b v
endorse Org1:peer:p0
tx Org1:client:c0 n3 cc
ns cc
nopolicy a
endorse Org1:peer:p0
",
                    flags: &[0, 0],
                    bytes: b"\x01\0\0\0\0\0\0\0\x01\0\0\0\x02\0\0\0\0\0\x02\
                    \x02cc\0\x01a\x01\0\0\0\0\0\0\0\x01\0\0\0\x01\0\0\0\x01v\0\0\
                    \x02cc\0\x01b\x01\0\0\0\0\0\0\0\x01\0\0\0\0\0\0\0\x01v\0\0\0",
                },
            ],
        },
    ),
];

// The block's commit hash, which the peer is to have behind it.
fn hash_behind(
    alloc: Global,
    peer: &mut ScriptedPeer,
    before: &Hash,
    told: &Told,
) -> Result<Hash, Failed> {
    check(peer.is_taken(alloc, told.script, told.flags)?)?;
    let hash = commit_hash(before, told.bytes, b"", b"");
    check(peer.world().commit_hash() == Some(hash))?;
    Ok(hash)
}

fn check_blocks(alloc: Global, peer: &mut ScriptedPeer, blocks: &[Told]) -> Result<(), Failed> {
    let mut hash = [0; 32];
    for told in blocks {
        hash = hash_behind(alloc, peer, &hash, told)?;
    }
    Ok(())
}

fn is_told(alloc: Global, chain: &Chain) -> Result<bool, Failed> {
    let mut peer = ScriptedPeer::with_line(alloc, chain.version, chain.line)?;
    Ok(check_blocks(alloc, &mut peer, chain.blocks).is_ok())
}

#[test]
fn what_is_hashed(rt: HostRuntime) -> Result<(), Failed> {
    for (name, chain) in chains() {
        assert!(rt; is_told(rt.alloc(), chain)?, "{name}");
    }
    Ok(())
}

// Scripts of blocks, each with its flags.
type Scripts = &'static [(&'static str, &'static [u8])];

fn differing() -> &'static [(&'static str, BlockVersion, Scripts, Scripts)] {
    &DIFFERING
}

const ROW: (&str, &[u8]) = (
    "tx Org1:client:c0 n1 cc\nns cc\nwrite k v\nendorse Org1:peer:p0\n",
    &[0],
);

static DIFFERING: [(&str, BlockVersion, Scripts, Scripts); 4] = [
    (
        "a flag",
        BlockVersion::V1,
        &[
            ROW,
            (
                "tx Org1:client:c0 n2 cc\nns cc\nread k absent\nwrite k w\nendorse Org1:peer:p0\n",
                &[11],
            ),
        ],
        &[
            ROW,
            (
                "tx Org1:client:c0 n2 cc\nns cc\nread k absent\nwrite k w\n",
                &[10],
            ),
        ],
    ),
    (
        "a policy",
        BlockVersion::V1,
        &[(
            "tx Org1:client:c0 n1 cc\nns cc\nwrite k v\npolicy k 'Org1.peer'\nendorse Org1:peer:p0\n",
            &[0],
        )],
        &[(
            "tx Org1:client:c0 n1 cc\nns cc\nwrite k v\npolicy k 'Org2.peer'\nendorse Org1:peer:p0\n",
            &[0],
        )],
    ),
    (
        "a version",
        BlockVersion::V1,
        &[(
            "tx Org1:client:c0 n1 cc\nns cc\nwrite k v\nendorse Org1:peer:p0\n\
            tx Org1:client:c0 n2 cc\nns cc\nendorse Org1:peer:p0\n",
            &[0, 0],
        )],
        &[(
            "tx Org1:client:c0 n1 cc\nns cc\nendorse Org1:peer:p0\n\
            tx Org1:client:c0 n2 cc\nns cc\nwrite k v\nendorse Org1:peer:p0\n",
            &[0, 0],
        )],
    ),
    (
        "a definition",
        BlockVersion::V2,
        &[(
            "update Org1:client:c0 n1 cc 'Org1.peer'\nendorse Org1:admin:a\n",
            &[0],
        )],
        &[(
            "update Org1:client:c0 n1 cc 'Org2.peer'\nendorse Org1:admin:a\n",
            &[0],
        )],
    ),
];

fn take_all(alloc: Global, peer: &mut ScriptedPeer, scripts: Scripts) -> Result<(), Failed> {
    for (script, flags) in scripts {
        check(peer.is_taken(alloc, script, flags)?)?;
    }
    Ok(())
}

fn last_hash(
    alloc: Global,
    version: BlockVersion,
    scripts: Scripts,
) -> Result<Option<Hash>, Failed> {
    let mut peer = ScriptedPeer::with_line(alloc, version, "admin 'Org1.admin'\n")?;
    take_all(alloc, &mut peer, scripts)?;
    Ok(peer.world().commit_hash())
}

fn are_apart(
    alloc: Global,
    version: BlockVersion,
    one: Scripts,
    other: Scripts,
) -> Result<bool, Failed> {
    let one = last_hash(alloc, version, one)?;
    Ok(one.is_some() && one != last_hash(alloc, version, other)?)
}

#[test]
fn chains_that_differ_in_one_thing(rt: HostRuntime) -> Result<(), Failed> {
    for &(what, version, one, other) in differing() {
        assert!(rt; are_apart(rt.alloc(), version, one, other)?, "{what}");
    }
    Ok(())
}
