//! Chains that each show one thing, made by vectors/make.py.

use super::{Left, LeftRow, Scripted, WorkedChain};

/// Chains about policy writes, endorsers, faults and ids, each of which shows one thing.
pub fn worked_endorsers() -> &'static [WorkedChain] {
    &WORKED_ENDORSERS
}

static WORKED_ENDORSERS: [WorkedChain; 8] = [
    WorkedChain {
        name: "policy_of_the_key_for_that_of_the_named_chaincode",
        blocks: &[
            Scripted {
                script: "\
tx Org1:client:c0 n1 both
ns both
write j v
write k v
policy k 'Org1.peer'
endorse Org1:peer:p0
endorse Org2:peer:q0
",
                flags: &[0],
            },
            Scripted {
                script: "\
tx Org1:client:c0 n2 both
ns both
nopolicy k
endorse Org1:peer:p0
tx Org1:client:c0 n3 both
ns both
nopolicy j
endorse Org1:peer:p0
tx Org1:client:c0 n4 both
ns cc
nopolicy k
endorse Org1:peer:p0
tx Org1:client:c0 n5 both
endorse Org1:peer:p0
",
                flags: &[0, 10, 10, 10],
            },
        ],
        left: &[
            Left {
                namespace: b"both",
                key: b"j",
                row: Some(LeftRow {
                    value: b"v",
                    block: 0,
                    tx: 0,
                    policy: "",
                }),
                history: b"\0\0\0\0\0\0\0\0\0\0\0\04d941d69b676a61aff49cd6e78f11d3727d68eebad17b933dd85233f09067498=\0\
            \0\0\0\0\0\0\x01v",
            },
            Left {
                namespace: b"both",
                key: b"k",
                row: Some(LeftRow {
                    value: b"v",
                    block: 1,
                    tx: 0,
                    policy: "",
                }),
                history: b"\0\0\0\0\0\0\0\0\0\0\0\04d941d69b676a61aff49cd6e78f11d3727d68eebad17b933dd85233f09067498=\0\
            \0\0\0\0\0\0\x01v",
            },
            Left {
                namespace: b"cc",
                key: b"k",
                row: None,
                history: b"",
            },
            Left {
                namespace: b"cc",
                key: b"none",
                row: None,
                history: b"",
            },
        ],
        uses: b"4d941d69b676a61aff49cd6e78f11d3727d68eebad17b933dd85233f09067498\0\0\0b76915c274f990013592df\
    05fee17b746f061366372c51ee83dc9d555cca5389\x01\0\0df9ae39a69c858c1a7bd54294d1c59f242892a6ba2\
    76255f2d18b918f5f6da6f\x01\x01\x0a72661a15dd44728362993ee41acd0f4100d5e99f81cd71c82b1ddcaaa7\
    52cd0d\x01\x02\x0ac645fc47b120eee38305fa70923ee9b94bf27df6048d8e92ad6ad5160b1fbb51\x01\x03\
    \x0a",
    },
    WorkedChain {
        name: "policy_write_without_definition",
        blocks: &[
            Scripted {
                script: "",
                flags: &[],
            },
            Scripted {
                script: "\
tx Org1:client:c0 n1 cc
ns zz
nopolicy k
endorse Org1:peer:p0
tx Org1:client:c0 n2 cc
ns cc
nopolicy k
endorse Org1:peer:p0
",
                flags: &[25, 0],
            },
        ],
        left: &[
            Left {
                namespace: b"cc",
                key: b"k",
                row: None,
                history: b"",
            },
            Left {
                namespace: b"cc",
                key: b"none",
                row: None,
                history: b"",
            },
        ],
        uses: b"4d941d69b676a61aff49cd6e78f11d3727d68eebad17b933dd85233f09067498\x01\0\x19b76915c274f9900135\
    92df05fee17b746f061366372c51ee83dc9d555cca5389\x01\x01\0",
    },
    WorkedChain {
        name: "one_peer_twice",
        blocks: &[
            Scripted {
                script: "",
                flags: &[],
            },
            Scripted {
                script: "\
tx Org1:client:c0 n1 pair
ns pair
write k v
endorse Org1:peer:p0
endorse Org1:peer:p0
tx Org1:client:c0 n2 pair
ns pair
write k v
endorse Org1:peer:p0
endorse Org1:peer:p1
",
                flags: &[10, 0],
            },
        ],
        left: &[
            Left {
                namespace: b"cc",
                key: b"k",
                row: None,
                history: b"",
            },
            Left {
                namespace: b"cc",
                key: b"none",
                row: None,
                history: b"",
            },
            Left {
                namespace: b"pair",
                key: b"k",
                row: Some(LeftRow {
                    value: b"v",
                    block: 1,
                    tx: 1,
                    policy: "",
                }),
                history: b"\0\0\0\0\0\0\0\x01\0\0\0\x01b76915c274f990013592df05fee17b746f061366372c51ee83dc9d555cca5389\
            =\0\0\0\0\0\0\0\x01v",
            },
        ],
        uses: b"4d941d69b676a61aff49cd6e78f11d3727d68eebad17b933dd85233f09067498\x01\0\x0ab76915c274f9900135\
    92df05fee17b746f061366372c51ee83dc9d555cca5389\x01\x01\0",
    },
    WorkedChain {
        name: "admin_before_peer",
        blocks: &[
            Scripted {
                script: "",
                flags: &[],
            },
            Scripted {
                script: "\
tx Org1:client:c0 n1 chief
ns chief
write k v
endorse Org1:admin:a
endorse Org1:peer:p0
tx Org1:client:c0 n2 chief
ns chief
write k v
endorse Org1:peer:p0
endorse Org1:admin:a
",
                flags: &[10, 0],
            },
        ],
        left: &[
            Left {
                namespace: b"cc",
                key: b"k",
                row: None,
                history: b"",
            },
            Left {
                namespace: b"cc",
                key: b"none",
                row: None,
                history: b"",
            },
            Left {
                namespace: b"chief",
                key: b"k",
                row: Some(LeftRow {
                    value: b"v",
                    block: 1,
                    tx: 1,
                    policy: "",
                }),
                history: b"\0\0\0\0\0\0\0\x01\0\0\0\x01b76915c274f990013592df05fee17b746f061366372c51ee83dc9d555cca5389\
            =\0\0\0\0\0\0\0\x01v",
            },
        ],
        uses: b"4d941d69b676a61aff49cd6e78f11d3727d68eebad17b933dd85233f09067498\x01\0\x0ab76915c274f9900135\
    92df05fee17b746f061366372c51ee83dc9d555cca5389\x01\x01\0",
    },
    WorkedChain {
        name: "inner_gates",
        blocks: &[
            Scripted {
                script: "",
                flags: &[],
            },
            Scripted {
                script: "\
tx Org1:client:c0 n1 either
ns either
write k v
endorse Org1:peer:p0
tx Org1:client:c0 n2 greedy
ns greedy
write k v
endorse Org1:peer:p0
endorse Org1:peer:p1
",
                flags: &[0, 10],
            },
        ],
        left: &[
            Left {
                namespace: b"cc",
                key: b"k",
                row: None,
                history: b"",
            },
            Left {
                namespace: b"cc",
                key: b"none",
                row: None,
                history: b"",
            },
            Left {
                namespace: b"either",
                key: b"k",
                row: Some(LeftRow {
                    value: b"v",
                    block: 1,
                    tx: 0,
                    policy: "",
                }),
                history: b"\0\0\0\0\0\0\0\x01\0\0\0\04d941d69b676a61aff49cd6e78f11d3727d68eebad17b933dd85233f09067498=\
            \0\0\0\0\0\0\0\x01v",
            },
        ],
        uses: b"4d941d69b676a61aff49cd6e78f11d3727d68eebad17b933dd85233f09067498\x01\0\0b76915c274f990013592\
    df05fee17b746f061366372c51ee83dc9d555cca5389\x01\x01\x0a",
    },
    WorkedChain {
        name: "phantom_before_stale",
        blocks: &[
            Scripted {
                script: "\
tx Org1:client:c0 n1 cc
ns cc
write a v
endorse Org1:peer:p0
",
                flags: &[0],
            },
            Scripted {
                script: "\
tx Org1:client:c0 n2 cc
ns cc
range a d all
ns dd
read a 0 0
endorse Org1:peer:p0
",
                flags: &[12],
            },
        ],
        left: &[
            Left {
                namespace: b"cc",
                key: b"a",
                row: Some(LeftRow {
                    value: b"v",
                    block: 0,
                    tx: 0,
                    policy: "",
                }),
                history: b"\0\0\0\0\0\0\0\0\0\0\0\04d941d69b676a61aff49cd6e78f11d3727d68eebad17b933dd85233f09067498=\0\
            \0\0\0\0\0\0\x01v",
            },
            Left {
                namespace: b"cc",
                key: b"k",
                row: None,
                history: b"",
            },
            Left {
                namespace: b"cc",
                key: b"none",
                row: None,
                history: b"",
            },
        ],
        uses: b"4d941d69b676a61aff49cd6e78f11d3727d68eebad17b933dd85233f09067498\0\0\0b76915c274f990013592df\
    05fee17b746f061366372c51ee83dc9d555cca5389\x01\0\x0c",
    },
    WorkedChain {
        name: "phantom_and_stale",
        blocks: &[
            Scripted {
                script: "\
tx Org1:client:c0 n1 cc
ns cc
write a v
endorse Org1:peer:p0
",
                flags: &[0],
            },
            Scripted {
                script: "\
tx Org1:client:c0 n2 cc
ns cc
read a absent
range a d all
endorse Org1:peer:p0
",
                flags: &[11],
            },
        ],
        left: &[
            Left {
                namespace: b"cc",
                key: b"a",
                row: Some(LeftRow {
                    value: b"v",
                    block: 0,
                    tx: 0,
                    policy: "",
                }),
                history: b"\0\0\0\0\0\0\0\0\0\0\0\04d941d69b676a61aff49cd6e78f11d3727d68eebad17b933dd85233f09067498=\0\
            \0\0\0\0\0\0\x01v",
            },
            Left {
                namespace: b"cc",
                key: b"k",
                row: None,
                history: b"",
            },
            Left {
                namespace: b"cc",
                key: b"none",
                row: None,
                history: b"",
            },
        ],
        uses: b"4d941d69b676a61aff49cd6e78f11d3727d68eebad17b933dd85233f09067498\0\0\0b76915c274f990013592df\
    05fee17b746f061366372c51ee83dc9d555cca5389\x01\0\x0b",
    },
    WorkedChain {
        name: "id_of_an_invalid_transaction",
        blocks: &[
            Scripted {
                script: "",
                flags: &[],
            },
            Scripted {
                script: "\
tx Org1:client:c0 n cc
ns cc
write k v
tx Org1:client:c0 n cc
ns cc
write k v
endorse Org1:peer:p0
",
                flags: &[10, 9],
            },
            Scripted {
                script: "\
tx Org1:client:c0 n cc
ns cc
write k v
endorse Org1:peer:p0
",
                flags: &[9],
            },
        ],
        left: &[
            Left {
                namespace: b"cc",
                key: b"k",
                row: None,
                history: b"",
            },
            Left {
                namespace: b"cc",
                key: b"none",
                row: None,
                history: b"",
            },
        ],
        uses: b"1a4732c88eb14cbdb21732b87c91334c3d3a2f3b67872e5031cf4db4b996372f\x01\0\x0a",
    },
];
