//! Chains that each show one thing, made by vectors/make.py.

use super::{Left, LeftRow, Scripted, WorkedChain};

/// Chains about reads and policies of keys, each of which shows one thing.
pub fn worked_reads() -> &'static [WorkedChain] {
    &WORKED_READS
}

static WORKED_READS: [WorkedChain; 8] = [
    WorkedChain {
        name: "reads_of_keys_written_before",
        blocks: &[
            Scripted {
                script: "\
tx Org1:client:c0 n1 cc
ns cc
write k1 v
write k2 v
write k3 v
write k4 v
write k5 v
endorse Org1:peer:p0
",
                flags: &[0],
            },
            Scripted {
                script: "\
tx Org1:client:c0 n2 cc
ns cc
write k1 v
write k2 v
endorse Org1:peer:p0
tx Org1:client:c0 n3 cc
ns cc
read k1 0 0
write k3 v
endorse Org1:peer:p0
tx Org1:client:c0 n4 cc
ns cc
write k2 v
endorse Org1:peer:p0
tx Org1:client:c0 n5 cc
ns cc
read k2 0 0
write k2 v
endorse Org1:peer:p0
tx Org1:client:c0 n6 cc
ns cc
read k5 0 0
write k6 v
endorse Org1:peer:p0
",
                flags: &[0, 11, 0, 11, 0],
            },
        ],
        left: &[
            Left {
                namespace: b"cc",
                key: b"k",
                row: None,
                history: b"",
            },
            Left {
                namespace: b"cc",
                key: b"k1",
                row: Some(LeftRow {
                    value: b"v",
                    block: 1,
                    tx: 0,
                    policy: "",
                }),
                history: b"\0\0\0\0\0\0\0\x01\0\0\0\0b76915c274f990013592df05fee17b746f061366372c51ee83dc9d555cca5389=\
            \0\0\0\0\0\0\0\x01v\0\0\0\0\0\0\0\0\0\0\0\04d941d69b676a61aff49cd6e78f11d3727d68eebad17b933d\
            d85233f09067498=\0\0\0\0\0\0\0\x01v",
            },
            Left {
                namespace: b"cc",
                key: b"k2",
                row: Some(LeftRow {
                    value: b"v",
                    block: 1,
                    tx: 2,
                    policy: "",
                }),
                history: b"\0\0\0\0\0\0\0\x01\0\0\0\x0272661a15dd44728362993ee41acd0f4100d5e99f81cd71c82b1ddcaaa752cd0d\
            =\0\0\0\0\0\0\0\x01v\0\0\0\0\0\0\0\x01\0\0\0\0b76915c274f990013592df05fee17b746f061366372c51\
            ee83dc9d555cca5389=\0\0\0\0\0\0\0\x01v\0\0\0\0\0\0\0\0\0\0\0\04d941d69b676a61aff49cd6e78f11d\
            3727d68eebad17b933dd85233f09067498=\0\0\0\0\0\0\0\x01v",
            },
            Left {
                namespace: b"cc",
                key: b"k3",
                row: Some(LeftRow {
                    value: b"v",
                    block: 0,
                    tx: 0,
                    policy: "",
                }),
                history: b"\0\0\0\0\0\0\0\0\0\0\0\04d941d69b676a61aff49cd6e78f11d3727d68eebad17b933dd85233f09067498=\0\
            \0\0\0\0\0\0\x01v",
            },
            Left {
                namespace: b"cc",
                key: b"k4",
                row: Some(LeftRow {
                    value: b"v",
                    block: 0,
                    tx: 0,
                    policy: "",
                }),
                history: b"\0\0\0\0\0\0\0\0\0\0\0\04d941d69b676a61aff49cd6e78f11d3727d68eebad17b933dd85233f09067498=\0\
            \0\0\0\0\0\0\x01v",
            },
            Left {
                namespace: b"cc",
                key: b"k5",
                row: Some(LeftRow {
                    value: b"v",
                    block: 0,
                    tx: 0,
                    policy: "",
                }),
                history: b"\0\0\0\0\0\0\0\0\0\0\0\04d941d69b676a61aff49cd6e78f11d3727d68eebad17b933dd85233f09067498=\0\
            \0\0\0\0\0\0\x01v",
            },
            Left {
                namespace: b"cc",
                key: b"k6",
                row: Some(LeftRow {
                    value: b"v",
                    block: 1,
                    tx: 4,
                    policy: "",
                }),
                history: b"\0\0\0\0\0\0\0\x01\0\0\0\x04291332360adafa3423b9c53a39a9e2d7728ec1023a0de7c05e53a03574b1fdb7\
            =\0\0\0\0\0\0\0\x01v",
            },
            Left {
                namespace: b"cc",
                key: b"none",
                row: None,
                history: b"",
            },
        ],
        uses: b"4d941d69b676a61aff49cd6e78f11d3727d68eebad17b933dd85233f09067498\0\0\0b76915c274f990013592df\
    05fee17b746f061366372c51ee83dc9d555cca5389\x01\0\0df9ae39a69c858c1a7bd54294d1c59f242892a6ba2\
    76255f2d18b918f5f6da6f\x01\x01\x0b72661a15dd44728362993ee41acd0f4100d5e99f81cd71c82b1ddcaaa7\
    52cd0d\x01\x02\0c645fc47b120eee38305fa70923ee9b94bf27df6048d8e92ad6ad5160b1fbb51\x01\x03\x0b\
    291332360adafa3423b9c53a39a9e2d7728ec1023a0de7c05e53a03574b1fdb7\x01\x04\0",
    },
    WorkedChain {
        name: "absent_after_a_delete",
        blocks: &[
            Scripted {
                script: "\
tx Org1:client:c0 n1 cc
ns cc
write k v
endorse Org1:peer:p0
",
                flags: &[0],
            },
            Scripted {
                script: "\
tx Org1:client:c0 n2 cc
ns cc
delete k
endorse Org1:peer:p0
tx Org1:client:c0 n3 cc
ns cc
read k absent
endorse Org1:peer:p0
",
                flags: &[0, 0],
            },
        ],
        left: &[
            Left {
                namespace: b"cc",
                key: b"k",
                row: None,
                history: b"\0\0\0\0\0\0\0\x01\0\0\0\0b76915c274f990013592df05fee17b746f061366372c51ee83dc9d555cca5389-\
            \0\0\0\0\0\0\0\0\0\0\0\04d941d69b676a61aff49cd6e78f11d3727d68eebad17b933dd85233f09067498=\0\
            \0\0\0\0\0\0\x01v",
            },
            Left {
                namespace: b"cc",
                key: b"none",
                row: None,
                history: b"",
            },
        ],
        uses: b"4d941d69b676a61aff49cd6e78f11d3727d68eebad17b933dd85233f09067498\0\0\0b76915c274f990013592df\
    05fee17b746f061366372c51ee83dc9d555cca5389\x01\0\0df9ae39a69c858c1a7bd54294d1c59f242892a6ba2\
    76255f2d18b918f5f6da6f\x01\x01\0",
    },
    WorkedChain {
        name: "read_of_a_write_in_the_block",
        blocks: &[
            Scripted {
                script: "",
                flags: &[],
            },
            Scripted {
                script: "\
tx Org1:client:c0 n1 cc
ns cc
write k v
endorse Org1:peer:p0
tx Org1:client:c0 n2 cc
ns cc
read k 1 0
endorse Org1:peer:p0
",
                flags: &[0, 0],
            },
        ],
        left: &[
            Left {
                namespace: b"cc",
                key: b"k",
                row: Some(LeftRow {
                    value: b"v",
                    block: 1,
                    tx: 0,
                    policy: "",
                }),
                history: b"\0\0\0\0\0\0\0\x01\0\0\0\04d941d69b676a61aff49cd6e78f11d3727d68eebad17b933dd85233f09067498=\
            \0\0\0\0\0\0\0\x01v",
            },
            Left {
                namespace: b"cc",
                key: b"none",
                row: None,
                history: b"",
            },
        ],
        uses: b"4d941d69b676a61aff49cd6e78f11d3727d68eebad17b933dd85233f09067498\x01\0\0b76915c274f990013592\
    df05fee17b746f061366372c51ee83dc9d555cca5389\x01\x01\0",
    },
    WorkedChain {
        name: "read_of_an_invalid_write",
        blocks: &[
            Scripted {
                script: "",
                flags: &[],
            },
            Scripted {
                script: "\
tx Org1:client:c0 n1 cc
ns cc
write k v
tx Org1:client:c0 n2 cc
ns cc
read k 1 0
endorse Org1:peer:p0
",
                flags: &[10, 11],
            },
        ],
        left: &[
            Left {
                namespace: b"cc",
                key: b"k",
                row: None,
                history: b"",
            },
            Left {
                namespace: b"cc",
                key: b"none",
                row: None,
                history: b"",
            },
        ],
        uses: b"4d941d69b676a61aff49cd6e78f11d3727d68eebad17b933dd85233f09067498\x01\0\x0ab76915c274f9900135\
    92df05fee17b746f061366372c51ee83dc9d555cca5389\x01\x01\x0b",
    },
    WorkedChain {
        name: "policy_write_of_a_stale_reader",
        blocks: &[
            Scripted {
                script: "\
tx Org1:client:c0 n1 cc
ns cc
write k v
write x v
endorse Org1:peer:p0
",
                flags: &[0],
            },
            Scripted {
                script: "\
tx Org1:client:c0 n2 cc
ns cc
read x absent
policy k AND('Org1.peer','Org2.peer')
endorse Org1:peer:p0
tx Org1:client:c0 n3 cc
ns cc
write k v
endorse Org1:peer:p0
",
                flags: &[11, 10],
            },
        ],
        left: &[
            Left {
                namespace: b"cc",
                key: b"k",
                row: Some(LeftRow {
                    value: b"v",
                    block: 0,
                    tx: 0,
                    policy: "",
                }),
                history: b"\0\0\0\0\0\0\0\0\0\0\0\04d941d69b676a61aff49cd6e78f11d3727d68eebad17b933dd85233f09067498=\0\
            \0\0\0\0\0\0\x01v",
            },
            Left {
                namespace: b"cc",
                key: b"none",
                row: None,
                history: b"",
            },
            Left {
                namespace: b"cc",
                key: b"x",
                row: Some(LeftRow {
                    value: b"v",
                    block: 0,
                    tx: 0,
                    policy: "",
                }),
                history: b"\0\0\0\0\0\0\0\0\0\0\0\04d941d69b676a61aff49cd6e78f11d3727d68eebad17b933dd85233f09067498=\0\
            \0\0\0\0\0\0\x01v",
            },
        ],
        uses: b"4d941d69b676a61aff49cd6e78f11d3727d68eebad17b933dd85233f09067498\0\0\0b76915c274f990013592df\
    05fee17b746f061366372c51ee83dc9d555cca5389\x01\0\x0bdf9ae39a69c858c1a7bd54294d1c59f242892a6b\
    a276255f2d18b918f5f6da6f\x01\x01\x0a",
    },
    WorkedChain {
        name: "policy_write_of_a_deleted_key",
        blocks: &[
            Scripted {
                script: "\
tx Org1:client:c0 n1 cc
ns cc
write k v
endorse Org1:peer:p0
",
                flags: &[0],
            },
            Scripted {
                script: "\
tx Org1:client:c0 n2 cc
ns cc
delete k
endorse Org1:peer:p0
tx Org1:client:c0 n3 cc
ns cc
policy k AND('Org1.peer','Org2.peer')
endorse Org1:peer:p0
tx Org1:client:c0 n4 cc
ns cc
read k absent
endorse Org1:peer:p0
",
                flags: &[0, 0, 0],
            },
        ],
        left: &[
            Left {
                namespace: b"cc",
                key: b"k",
                row: None,
                history: b"\0\0\0\0\0\0\0\x01\0\0\0\0b76915c274f990013592df05fee17b746f061366372c51ee83dc9d555cca5389-\
            \0\0\0\0\0\0\0\0\0\0\0\04d941d69b676a61aff49cd6e78f11d3727d68eebad17b933dd85233f09067498=\0\
            \0\0\0\0\0\0\x01v",
            },
            Left {
                namespace: b"cc",
                key: b"none",
                row: None,
                history: b"",
            },
        ],
        uses: b"4d941d69b676a61aff49cd6e78f11d3727d68eebad17b933dd85233f09067498\0\0\0b76915c274f990013592df\
    05fee17b746f061366372c51ee83dc9d555cca5389\x01\0\0df9ae39a69c858c1a7bd54294d1c59f242892a6ba2\
    76255f2d18b918f5f6da6f\x01\x01\072661a15dd44728362993ee41acd0f4100d5e99f81cd71c82b1ddcaaa752\
    cd0d\x01\x02\0",
    },
    WorkedChain {
        name: "key_with_a_policy_of_its_own",
        blocks: &[
            Scripted {
                script: "\
tx Org1:client:c0 n1 cc
ns cc
write k v
policy k AND('Org1.peer','Org2.peer')
endorse Org1:peer:p0
",
                flags: &[0],
            },
            Scripted {
                script: "\
tx Org1:client:c0 n2 cc
ns cc
write k v
endorse Org1:peer:p0
tx Org1:client:c0 n3 cc
ns cc
write k v
endorse Org1:peer:p0
endorse Org2:peer:q0
",
                flags: &[10, 0],
            },
        ],
        left: &[
            Left {
                namespace: b"cc",
                key: b"k",
                row: Some(LeftRow {
                    value: b"v",
                    block: 1,
                    tx: 1,
                    policy: "AND('Org1.peer','Org2.peer')",
                }),
                history: b"\0\0\0\0\0\0\0\x01\0\0\0\x01df9ae39a69c858c1a7bd54294d1c59f242892a6ba276255f2d18b918f5f6da6f\
            =\0\0\0\0\0\0\0\x01v\0\0\0\0\0\0\0\0\0\0\0\04d941d69b676a61aff49cd6e78f11d3727d68eebad17b933\
            dd85233f09067498=\0\0\0\0\0\0\0\x01v",
            },
            Left {
                namespace: b"cc",
                key: b"none",
                row: None,
                history: b"",
            },
        ],
        uses: b"4d941d69b676a61aff49cd6e78f11d3727d68eebad17b933dd85233f09067498\0\0\0b76915c274f990013592df\
    05fee17b746f061366372c51ee83dc9d555cca5389\x01\0\x0adf9ae39a69c858c1a7bd54294d1c59f242892a6b\
    a276255f2d18b918f5f6da6f\x01\x01\0",
    },
    WorkedChain {
        name: "policy_write_in_a_later_block",
        blocks: &[
            Scripted {
                script: "\
tx Org1:client:c0 n1 cc
ns cc
write k v1
endorse Org1:peer:p0
",
                flags: &[0],
            },
            Scripted {
                script: "\
tx Org1:client:c0 n2 cc
ns cc
delete k
endorse Org1:peer:p0
",
                flags: &[0],
            },
            Scripted {
                script: "\
tx Org1:client:c0 n3 cc
ns cc
policy k AND('Org1.peer','Org2.peer')
endorse Org1:peer:p0
",
                flags: &[0],
            },
        ],
        left: &[
            Left {
                namespace: b"cc",
                key: b"k",
                row: None,
                history: b"\0\0\0\0\0\0\0\x01\0\0\0\0b76915c274f990013592df05fee17b746f061366372c51ee83dc9d555cca5389-\
            \0\0\0\0\0\0\0\0\0\0\0\04d941d69b676a61aff49cd6e78f11d3727d68eebad17b933dd85233f09067498=\0\
            \0\0\0\0\0\0\x02v1",
            },
            Left {
                namespace: b"cc",
                key: b"none",
                row: None,
                history: b"",
            },
        ],
        uses: b"4d941d69b676a61aff49cd6e78f11d3727d68eebad17b933dd85233f09067498\0\0\0b76915c274f990013592df\
    05fee17b746f061366372c51ee83dc9d555cca5389\x01\0\0df9ae39a69c858c1a7bd54294d1c59f242892a6ba2\
    76255f2d18b918f5f6da6f\x02\0\0",
    },
];
