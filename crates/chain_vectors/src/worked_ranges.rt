//! Chains that each show one thing, made by vectors/make.py.

use super::{Left, LeftRow, Scripted, WorkedChain};

/// Chains about ranges, each of which shows one thing.
pub fn worked_ranges() -> &'static [WorkedChain] {
    &WORKED_RANGES
}

static WORKED_RANGES: [WorkedChain; 5] = [
    WorkedChain {
        name: "insert_into_a_range",
        blocks: &[
            Scripted {
                script: "\
tx Org1:client:c0 n1 cc
ns cc
write a v
write c v
endorse Org1:peer:p0
",
                flags: &[0],
            },
            Scripted {
                script: "\
tx Org1:client:c0 n2 cc
ns cc
write b v
endorse Org1:peer:p0
tx Org1:client:c0 n3 cc
ns cc
range a d all
result a 0 0
result c 0 0
endorse Org1:peer:p0
",
                flags: &[0, 12],
            },
        ],
        left: &[
            Left {
                namespace: b"cc",
                key: b"a",
                row: Some(LeftRow {
                    value: b"v",
                    block: 0,
                    tx: 0,
                    policy: "",
                }),
                history: b"\0\0\0\0\0\0\0\0\0\0\0\04d941d69b676a61aff49cd6e78f11d3727d68eebad17b933dd85233f09067498=\0\
            \0\0\0\0\0\0\x01v",
            },
            Left {
                namespace: b"cc",
                key: b"b",
                row: Some(LeftRow {
                    value: b"v",
                    block: 1,
                    tx: 0,
                    policy: "",
                }),
                history: b"\0\0\0\0\0\0\0\x01\0\0\0\0b76915c274f990013592df05fee17b746f061366372c51ee83dc9d555cca5389=\
            \0\0\0\0\0\0\0\x01v",
            },
            Left {
                namespace: b"cc",
                key: b"c",
                row: Some(LeftRow {
                    value: b"v",
                    block: 0,
                    tx: 0,
                    policy: "",
                }),
                history: b"\0\0\0\0\0\0\0\0\0\0\0\04d941d69b676a61aff49cd6e78f11d3727d68eebad17b933dd85233f09067498=\0\
            \0\0\0\0\0\0\x01v",
            },
            Left {
                namespace: b"cc",
                key: b"k",
                row: None,
                history: b"",
            },
            Left {
                namespace: b"cc",
                key: b"none",
                row: None,
                history: b"",
            },
        ],
        uses: b"4d941d69b676a61aff49cd6e78f11d3727d68eebad17b933dd85233f09067498\0\0\0b76915c274f990013592df\
    05fee17b746f061366372c51ee83dc9d555cca5389\x01\0\0df9ae39a69c858c1a7bd54294d1c59f242892a6ba2\
    76255f2d18b918f5f6da6f\x01\x01\x0c",
    },
    WorkedChain {
        name: "invalid_insert_into_a_range",
        blocks: &[
            Scripted {
                script: "\
tx Org1:client:c0 n1 cc
ns cc
write a v
write c v
endorse Org1:peer:p0
",
                flags: &[0],
            },
            Scripted {
                script: "\
tx Org1:client:c0 n2 cc
ns cc
write b v
tx Org1:client:c0 n3 cc
ns cc
range a d all
result a 0 0
result c 0 0
endorse Org1:peer:p0
",
                flags: &[10, 0],
            },
        ],
        left: &[
            Left {
                namespace: b"cc",
                key: b"a",
                row: Some(LeftRow {
                    value: b"v",
                    block: 0,
                    tx: 0,
                    policy: "",
                }),
                history: b"\0\0\0\0\0\0\0\0\0\0\0\04d941d69b676a61aff49cd6e78f11d3727d68eebad17b933dd85233f09067498=\0\
            \0\0\0\0\0\0\x01v",
            },
            Left {
                namespace: b"cc",
                key: b"c",
                row: Some(LeftRow {
                    value: b"v",
                    block: 0,
                    tx: 0,
                    policy: "",
                }),
                history: b"\0\0\0\0\0\0\0\0\0\0\0\04d941d69b676a61aff49cd6e78f11d3727d68eebad17b933dd85233f09067498=\0\
            \0\0\0\0\0\0\x01v",
            },
            Left {
                namespace: b"cc",
                key: b"k",
                row: None,
                history: b"",
            },
            Left {
                namespace: b"cc",
                key: b"none",
                row: None,
                history: b"",
            },
        ],
        uses: b"4d941d69b676a61aff49cd6e78f11d3727d68eebad17b933dd85233f09067498\0\0\0b76915c274f990013592df\
    05fee17b746f061366372c51ee83dc9d555cca5389\x01\0\x0adf9ae39a69c858c1a7bd54294d1c59f242892a6b\
    a276255f2d18b918f5f6da6f\x01\x01\0",
    },
    WorkedChain {
        name: "insert_behind_the_last_result",
        blocks: &[
            Scripted {
                script: "\
tx Org1:client:c0 n1 cc
ns cc
write a v
write c v
endorse Org1:peer:p0
",
                flags: &[0],
            },
            Scripted {
                script: "\
tx Org1:client:c0 n2 cc
ns cc
write cc v
endorse Org1:peer:p0
tx Org1:client:c0 n3 cc
ns cc
range a d part
result a 0 0
result c 0 0
endorse Org1:peer:p0
",
                flags: &[0, 0],
            },
        ],
        left: &[
            Left {
                namespace: b"cc",
                key: b"a",
                row: Some(LeftRow {
                    value: b"v",
                    block: 0,
                    tx: 0,
                    policy: "",
                }),
                history: b"\0\0\0\0\0\0\0\0\0\0\0\04d941d69b676a61aff49cd6e78f11d3727d68eebad17b933dd85233f09067498=\0\
            \0\0\0\0\0\0\x01v",
            },
            Left {
                namespace: b"cc",
                key: b"c",
                row: Some(LeftRow {
                    value: b"v",
                    block: 0,
                    tx: 0,
                    policy: "",
                }),
                history: b"\0\0\0\0\0\0\0\0\0\0\0\04d941d69b676a61aff49cd6e78f11d3727d68eebad17b933dd85233f09067498=\0\
            \0\0\0\0\0\0\x01v",
            },
            Left {
                namespace: b"cc",
                key: b"cc",
                row: Some(LeftRow {
                    value: b"v",
                    block: 1,
                    tx: 0,
                    policy: "",
                }),
                history: b"\0\0\0\0\0\0\0\x01\0\0\0\0b76915c274f990013592df05fee17b746f061366372c51ee83dc9d555cca5389=\
            \0\0\0\0\0\0\0\x01v",
            },
            Left {
                namespace: b"cc",
                key: b"k",
                row: None,
                history: b"",
            },
            Left {
                namespace: b"cc",
                key: b"none",
                row: None,
                history: b"",
            },
        ],
        uses: b"4d941d69b676a61aff49cd6e78f11d3727d68eebad17b933dd85233f09067498\0\0\0b76915c274f990013592df\
    05fee17b746f061366372c51ee83dc9d555cca5389\x01\0\0df9ae39a69c858c1a7bd54294d1c59f242892a6ba2\
    76255f2d18b918f5f6da6f\x01\x01\0",
    },
    WorkedChain {
        name: "insert_and_no_result",
        blocks: &[
            Scripted {
                script: "\
tx Org1:client:c0 n1 cc
ns cc
write a v
write c v
endorse Org1:peer:p0
",
                flags: &[0],
            },
            Scripted {
                script: "\
tx Org1:client:c0 n2 cc
ns cc
write b v
endorse Org1:peer:p0
tx Org1:client:c0 n3 cc
ns cc
range a d part
endorse Org1:peer:p0
",
                flags: &[0, 0],
            },
        ],
        left: &[
            Left {
                namespace: b"cc",
                key: b"a",
                row: Some(LeftRow {
                    value: b"v",
                    block: 0,
                    tx: 0,
                    policy: "",
                }),
                history: b"\0\0\0\0\0\0\0\0\0\0\0\04d941d69b676a61aff49cd6e78f11d3727d68eebad17b933dd85233f09067498=\0\
            \0\0\0\0\0\0\x01v",
            },
            Left {
                namespace: b"cc",
                key: b"b",
                row: Some(LeftRow {
                    value: b"v",
                    block: 1,
                    tx: 0,
                    policy: "",
                }),
                history: b"\0\0\0\0\0\0\0\x01\0\0\0\0b76915c274f990013592df05fee17b746f061366372c51ee83dc9d555cca5389=\
            \0\0\0\0\0\0\0\x01v",
            },
            Left {
                namespace: b"cc",
                key: b"c",
                row: Some(LeftRow {
                    value: b"v",
                    block: 0,
                    tx: 0,
                    policy: "",
                }),
                history: b"\0\0\0\0\0\0\0\0\0\0\0\04d941d69b676a61aff49cd6e78f11d3727d68eebad17b933dd85233f09067498=\0\
            \0\0\0\0\0\0\x01v",
            },
            Left {
                namespace: b"cc",
                key: b"k",
                row: None,
                history: b"",
            },
            Left {
                namespace: b"cc",
                key: b"none",
                row: None,
                history: b"",
            },
        ],
        uses: b"4d941d69b676a61aff49cd6e78f11d3727d68eebad17b933dd85233f09067498\0\0\0b76915c274f990013592df\
    05fee17b746f061366372c51ee83dc9d555cca5389\x01\0\0df9ae39a69c858c1a7bd54294d1c59f242892a6ba2\
    76255f2d18b918f5f6da6f\x01\x01\0",
    },
    WorkedChain {
        name: "later_insert_and_no_result",
        blocks: &[
            Scripted {
                script: "\
tx Org1:client:c0 n1 cc
ns cc
write a v
write c v
endorse Org1:peer:p0
",
                flags: &[0],
            },
            Scripted {
                script: "\
tx Org1:client:c0 n2 cc
ns cc
write cc v
endorse Org1:peer:p0
tx Org1:client:c0 n3 cc
ns cc
range a d part
endorse Org1:peer:p0
",
                flags: &[0, 0],
            },
        ],
        left: &[
            Left {
                namespace: b"cc",
                key: b"a",
                row: Some(LeftRow {
                    value: b"v",
                    block: 0,
                    tx: 0,
                    policy: "",
                }),
                history: b"\0\0\0\0\0\0\0\0\0\0\0\04d941d69b676a61aff49cd6e78f11d3727d68eebad17b933dd85233f09067498=\0\
            \0\0\0\0\0\0\x01v",
            },
            Left {
                namespace: b"cc",
                key: b"c",
                row: Some(LeftRow {
                    value: b"v",
                    block: 0,
                    tx: 0,
                    policy: "",
                }),
                history: b"\0\0\0\0\0\0\0\0\0\0\0\04d941d69b676a61aff49cd6e78f11d3727d68eebad17b933dd85233f09067498=\0\
            \0\0\0\0\0\0\x01v",
            },
            Left {
                namespace: b"cc",
                key: b"cc",
                row: Some(LeftRow {
                    value: b"v",
                    block: 1,
                    tx: 0,
                    policy: "",
                }),
                history: b"\0\0\0\0\0\0\0\x01\0\0\0\0b76915c274f990013592df05fee17b746f061366372c51ee83dc9d555cca5389=\
            \0\0\0\0\0\0\0\x01v",
            },
            Left {
                namespace: b"cc",
                key: b"k",
                row: None,
                history: b"",
            },
            Left {
                namespace: b"cc",
                key: b"none",
                row: None,
                history: b"",
            },
        ],
        uses: b"4d941d69b676a61aff49cd6e78f11d3727d68eebad17b933dd85233f09067498\0\0\0b76915c274f990013592df\
    05fee17b746f061366372c51ee83dc9d555cca5389\x01\0\0df9ae39a69c858c1a7bd54294d1c59f242892a6ba2\
    76255f2d18b918f5f6da6f\x01\x01\0",
    },
];
