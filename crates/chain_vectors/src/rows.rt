//! What the chain leaves at each key, made by vectors/make.py.

use super::{Left, LeftRow};

/// What is left at each key that the blocks write, and at `j` of `cc` and `x` of `zz`, in their order.
pub fn rows() -> &'static [Left] {
    &ROWS
}

static ROWS: [Left; 37] = [
    Left {
        namespace: b"both",
        key: b"t",
        row: Some(LeftRow {
            value: b"v",
            block: 13,
            tx: 1,
            policy: "",
        }),
        history: b"\0\0\0\0\0\0\0\x0d\0\0\0\x01e6062f1e9708dfabba706498a4cce342690a23e5acb7e2e83126cd6b3239bf6b\
    =\0\0\0\0\0\0\0\x01v",
    },
    Left {
        namespace: b"cc",
        key: b"a",
        row: Some(LeftRow {
            value: b"again",
            block: 26,
            tx: 5,
            policy: "OutOf(2,'Org1.peer','Org2.peer','Org3.peer')",
        }),
        history: b"\0\0\0\0\0\0\0\x19\0\0\0\05eab2872121c393ffa58e0195f3d671e317d2e753b3b53260d99107d181ff124=\
    \0\0\0\0\0\0\0\x05again\0\0\0\0\0\0\0\0\0\0\0\x01b76915c274f990013592df05fee17b746f061366372\
    c51ee83dc9d555cca5389=\0\0\0\0\0\0\0\x01v",
    },
    Left {
        namespace: b"cc",
        key: b"b",
        row: None,
        history: b"\0\0\0\0\0\0\0\x1a\0\0\0\x03ffcc62fd0c3e6b084414775df9473932ad40db9fad55661e568b0aa414e93678\
    -\0\0\0\0\0\0\0\x18\0\0\0\0e0e2ddf7a9152c3f4a170b0334a50db030537e3b262876d92404982f6fc71426=\
    \0\0\0\0\0\0\0\x01v",
    },
    Left {
        namespace: b"cc",
        key: b"c",
        row: None,
        history: b"\0\0\0\0\0\0\0\x18\0\0\0\x04f657868b5072815f1da3b7f36f7fe3a90fda31f5d51dc39e262dcc096769599d\
    -\0\0\0\0\0\0\0\0\0\0\0\x01b76915c274f990013592df05fee17b746f061366372c51ee83dc9d555cca5389=\
    \0\0\0\0\0\0\0\x01v",
    },
    Left {
        namespace: b"cc",
        key: b"cc",
        row: Some(LeftRow {
            value: b"v",
            block: 26,
            tx: 0,
            policy: "",
        }),
        history: b"\0\0\0\0\0\0\0\x1a\0\0\0\06965e9ea1b21b254dd1a9ef7e85e5c9c23cfe4ba79f27ccd5611664bc4652d02=\
    \0\0\0\0\0\0\0\x01v",
    },
    Left {
        namespace: b"cc",
        key: b"j",
        row: None,
        history: b"",
    },
    Left {
        namespace: b"cc",
        key: b"k1",
        row: Some(LeftRow {
            value: b"read and written",
            block: 23,
            tx: 2,
            policy: "",
        }),
        history: b"\0\0\0\0\0\0\0\x17\0\0\0\x0266074702f25a0018fcf04ff13980de6eed86da1df0da93bd756f5513087f9ffe\
    =\0\0\0\0\0\0\0\x10read and written\0\0\0\0\0\0\0\x12\0\0\0\0ff2c8f8847da26f1f66121c12e173b5\
    4e0103583b627b71e8255b4e62b410d4d=\0\0\0\0\0\0\0\x04free\0\0\0\0\0\0\0\x0f\0\0\0\x033ad1b6cc\
    77a70f14198a6d664f6fdc3d66f2890280cc37952fa9de1f2bc83c23=\0\0\0\0\0\0\0\x04both\0\0\0\0\0\0\
    \0\x01\0\0\0\0df9ae39a69c858c1a7bd54294d1c59f242892a6ba276255f2d18b918f5f6da6f=\0\0\0\0\0\0\
    \0\x02w1\0\0\0\0\0\0\0\0\0\0\0\04d941d69b676a61aff49cd6e78f11d3727d68eebad17b933dd85233f0906\
    7498=\0\0\0\0\0\0\0\x02v1",
    },
    Left {
        namespace: b"cc",
        key: b"k2",
        row: Some(LeftRow {
            value: b"free",
            block: 22,
            tx: 0,
            policy: "",
        }),
        history: b"\0\0\0\0\0\0\0\x16\0\0\0\016306a78fbc0b65c6201950329b6d1478c1aff26b0c599940c2ec32abfbb610e=\
    \0\0\0\0\0\0\0\x04free\0\0\0\0\0\0\0\x15\0\0\0\x0377cda6579826c9d205ec11fc75c12a141db11287b8\
    01d41e21e69797bd177066=\0\0\0\0\0\0\0\x04back\0\0\0\0\0\0\0\x15\0\0\0\x0186579da190a354c74fa\
    00f6349ea4b53239ed1ade818c67b0e68f129d9653100-\0\0\0\0\0\0\0\x12\0\0\0\x0353800a57374b27ecc2\
    44412eae468e7d9f94ff57145948aa9de9770be79f620e=\0\0\0\0\0\0\0\x08by admin\0\0\0\0\0\0\0\x11\
    \0\0\0\x03b1f12098296b426d7d44325931042c1fdc093f94dc536c1b47929c73ae40707b=\0\0\0\0\0\0\0\
    \x07guarded\0\0\0\0\0\0\0\x01\0\0\0\x02c645fc47b120eee38305fa70923ee9b94bf27df6048d8e92ad6ad\
    5160b1fbb51=\0\0\0\0\0\0\0\x02x2\0\0\0\0\0\0\0\x01\0\0\0\0df9ae39a69c858c1a7bd54294d1c59f242\
    892a6ba276255f2d18b918f5f6da6f=\0\0\0\0\0\0\0\x02w2\0\0\0\0\0\0\0\0\0\0\0\04d941d69b676a61af\
    f49cd6e78f11d3727d68eebad17b933dd85233f09067498=\0\0\0\0\0\0\0\x02v2",
    },
    Left {
        namespace: b"cc",
        key: b"k3",
        row: None,
        history: b"\0\0\0\0\0\0\0\x13\0\0\0\0adaace9cb414207529aed9dd2c21dd7ea0bedc5642ed2bf003a675b060e5fcd1-\
    \0\0\0\0\0\0\0\0\0\0\0\04d941d69b676a61aff49cd6e78f11d3727d68eebad17b933dd85233f09067498=\0\
    \0\0\0\0\0\0\x02v3",
    },
    Left {
        namespace: b"cc",
        key: b"k4",
        row: Some(LeftRow {
            value: b"back",
            block: 21,
            tx: 0,
            policy: "",
        }),
        history: b"\0\0\0\0\0\0\0\x15\0\0\0\085c3506fcbb7faac1febd0d1e167bbbfea8a8d9be0dce4a430094fe3f6c678b1=\
    \0\0\0\0\0\0\0\x04back\0\0\0\0\0\0\0\x14\0\0\0\016a943c2ed089583ddcda61a1a3115200442df11ccda\
    e8af37546648c0ffdcec-\0\0\0\0\0\0\0\x10\0\0\0\x03e79624a95ce3d1d1d60a15100eb87407f80badcafcb\
    7305995f121738d8474e7=\0\0\0\0\0\0\0\x09untouched\0\0\0\0\0\0\0\0\0\0\0\04d941d69b676a61aff4\
    9cd6e78f11d3727d68eebad17b933dd85233f09067498=\0\0\0\0\0\0\0\x02v4",
    },
    Left {
        namespace: b"cc",
        key: b"k5",
        row: Some(LeftRow {
            value: b"back",
            block: 20,
            tx: 3,
            policy: "",
        }),
        history: b"\0\0\0\0\0\0\0\x14\0\0\0\x03b15a01ab7f97c06eb596b3938b823bebdfa1c99292a4dc7314f043cb5e8846d9\
    =\0\0\0\0\0\0\0\x04back\0\0\0\0\0\0\0\x14\0\0\0\x023d81063b952a94c1b2a85e57acba9cac2d81b0cdb\
    bc88eba5c463d6ce631bef1-\0\0\0\0\0\0\0\x10\0\0\0\x05cfd3b21b4f018dbd04bd8276a6b6fac8c782ed63\
    740b7f02b9084d8abe4df45a=\0\0\0\0\0\0\0\x09untouched\0\0\0\0\0\0\0\0\0\0\0\04d941d69b676a61a\
    ff49cd6e78f11d3727d68eebad17b933dd85233f09067498=\0\0\0\0\0\0\0\x02v5",
    },
    Left {
        namespace: b"cc",
        key: b"k6",
        row: Some(LeftRow {
            value: b"w6",
            block: 1,
            tx: 4,
            policy: "",
        }),
        history: b"\0\0\0\0\0\0\0\x01\0\0\0\x04b3a3ddced069beb56269de7fc4bce33047936705c0d783bbaf0e6b90e99df9a6\
    =\0\0\0\0\0\0\0\x02w6",
    },
    Left {
        namespace: b"cc",
        key: b"late",
        row: Some(LeftRow {
            value: b"v",
            block: 3,
            tx: 5,
            policy: "",
        }),
        history: b"\0\0\0\0\0\0\0\x03\0\0\0\x05c1b6d7bbaa79d1348bf69eac3e45570ebe00eed4476847d46ade1e32e3e0fdab\
    =\0\0\0\0\0\0\0\x01v",
    },
    Left {
        namespace: b"cc",
        key: b"n1",
        row: Some(LeftRow {
            value: b"v",
            block: 22,
            tx: 1,
            policy: "",
        }),
        history: b"\0\0\0\0\0\0\0\x16\0\0\0\x01d480eb6a1ff2b9633f8a00de2d229c2692ed82a04c641fdd9107104fe905609f\
    =\0\0\0\0\0\0\0\x01v",
    },
    Left {
        namespace: b"cc",
        key: b"never",
        row: None,
        history: b"\0\0\0\0\0\0\0\x15\0\0\0\x052c7ff21fbf14080ed76a4dddd24e737e637e52340e61229796cf6beaf5e2b7b7\
    -",
    },
    Left {
        namespace: b"cc",
        key: b"once",
        row: Some(LeftRow {
            value: b"more",
            block: 31,
            tx: 1,
            policy: "'Org2.member'",
        }),
        history: b"\0\0\0\0\0\0\0\x1f\0\0\0\x01cd85afdd1aa6bdb558a59a8d472e8c6f95accd532a0b8d9f70f989da09743fef\
    =\0\0\0\0\0\0\0\x04more\0\0\0\0\0\0\0\x07\0\0\0\x0288fe220900b795e5aa55634cb2400053815b7c6fe\
    76dc3152b27c279a29e1b37=\0\0\0\0\0\0\0\x01v",
    },
    Left {
        namespace: b"cc",
        key: b"p",
        row: Some(LeftRow {
            value: b"",
            block: 30,
            tx: 0,
            policy: "",
        }),
        history: b"\0\0\0\0\0\0\0\x1e\0\0\0\0e3620d5b717f3bf93b480739c0b48fac4fb0752101bce3cbf60fe0575c347fbe=\
    \0\0\0\0\0\0\0\0",
    },
    Left {
        namespace: b"cc",
        key: b"p\0",
        row: Some(LeftRow {
            value: b"'\"\\",
            block: 30,
            tx: 0,
            policy: "",
        }),
        history: b"\0\0\0\0\0\0\0\x1e\0\0\0\0e3620d5b717f3bf93b480739c0b48fac4fb0752101bce3cbf60fe0575c347fbe=\
    \0\0\0\0\0\0\0\x03'\"\\",
    },
    Left {
        namespace: b"cc",
        key: b"pa",
        row: Some(LeftRow {
            value: b"\0\xff",
            block: 30,
            tx: 0,
            policy: "",
        }),
        history: b"\0\0\0\0\0\0\0\x1e\0\0\0\0e3620d5b717f3bf93b480739c0b48fac4fb0752101bce3cbf60fe0575c347fbe=\
    \0\0\0\0\0\0\0\x02\0\xff",
    },
    Left {
        namespace: b"cc",
        key: b"same",
        row: Some(LeftRow {
            value: b"v",
            block: 7,
            tx: 3,
            policy: "",
        }),
        history: b"\0\0\0\0\0\0\0\x07\0\0\0\x036f807df805d3681972216702a71b2508bfff1422f342c1f48bd3365f509292f8\
    =\0\0\0\0\0\0\0\x01v",
    },
    Left {
        namespace: b"cc",
        key: b"spaced",
        row: Some(LeftRow {
            value: b"plain",
            block: 31,
            tx: 0,
            policy: "",
        }),
        history: b"\0\0\0\0\0\0\0\x1f\0\0\0\0540541bdc732f002f0f43c567a0f67b9ab0917b116c69f009958554776a83b97=\
    \0\0\0\0\0\0\0\x05plain\0\0\0\0\0\0\0\x07\0\0\0\x05eb7dc22d538c35bbe2a35da6c640b1de6d642ec39\
    a6310f680151f36ebd75f4e=\0\0\0\0\0\0\0\x01v",
    },
    Left {
        namespace: b"cc",
        key: b"t",
        row: Some(LeftRow {
            value: b"v",
            block: 13,
            tx: 1,
            policy: "",
        }),
        history: b"\0\0\0\0\0\0\0\x0d\0\0\0\x01e6062f1e9708dfabba706498a4cce342690a23e5acb7e2e83126cd6b3239bf6b\
    =\0\0\0\0\0\0\0\x01v",
    },
    Left {
        namespace: b"cc",
        key: b"u1",
        row: Some(LeftRow {
            value: b"v",
            block: 3,
            tx: 2,
            policy: "",
        }),
        history: b"\0\0\0\0\0\0\0\x03\0\0\0\x0281952aa60a4eb31d1a26f0ec14d24caf95400ddc31b53d27719b6aff70a89828\
    =\0\0\0\0\0\0\0\x01v",
    },
    Left {
        namespace: b"cc",
        key: b"u2",
        row: Some(LeftRow {
            value: b"v",
            block: 3,
            tx: 3,
            policy: "",
        }),
        history: b"\0\0\0\0\0\0\0\x03\0\0\0\x037f61c2f1d280d7bd2d61bdc362993862dc00da2a1ae5b61215195d53881fdf5f\
    =\0\0\0\0\0\0\0\x01v",
    },
    Left {
        namespace: b"cc",
        key: b"u3",
        row: Some(LeftRow {
            value: b"v",
            block: 3,
            tx: 4,
            policy: "",
        }),
        history: b"\0\0\0\0\0\0\0\x03\0\0\0\x0414231a1ef50180ececfbe1caad40919cff4f8f34f0145e9726968637f2efd57b\
    =\0\0\0\0\0\0\0\x01v",
    },
    Left {
        namespace: b"cc",
        key: b"u4",
        row: Some(LeftRow {
            value: b"v",
            block: 4,
            tx: 2,
            policy: "",
        }),
        history: b"\0\0\0\0\0\0\0\x04\0\0\0\x0297e54c3f623716b7cc913a1ce35b37e9f91022cdf682d873c8fa6c8a24aea28e\
    =\0\0\0\0\0\0\0\x01v",
    },
    Left {
        namespace: b"cc",
        key: b"v1",
        row: Some(LeftRow {
            value: b"v",
            block: 9,
            tx: 4,
            policy: "",
        }),
        history: b"\0\0\0\0\0\0\0\x09\0\0\0\x04a859daea629a7cafe80ad05753315f4080c4e5cb3c65f9bd05aa399ec3b40351\
    =\0\0\0\0\0\0\0\x01v",
    },
    Left {
        namespace: b"cc",
        key: b"w1",
        row: Some(LeftRow {
            value: b"v",
            block: 12,
            tx: 1,
            policy: "",
        }),
        history: b"\0\0\0\0\0\0\0\x0c\0\0\0\x013560d191c64a60ccab0eb0beec38c076b43e4b3a870f3c9107af7a9c8bbfb2ad\
    =\0\0\0\0\0\0\0\x01v",
    },
    Left {
        namespace: b"cc",
        key: b"w2",
        row: Some(LeftRow {
            value: b"v",
            block: 12,
            tx: 5,
            policy: "",
        }),
        history: b"\0\0\0\0\0\0\0\x0c\0\0\0\x059549bce3a3183b0021702ca6129a9de5dce674c4a29b1a15b14b08b4209cc84d\
    =\0\0\0\0\0\0\0\x01v",
    },
    Left {
        namespace: b"chief",
        key: b"x",
        row: Some(LeftRow {
            value: b"v",
            block: 10,
            tx: 5,
            policy: "",
        }),
        history: b"\0\0\0\0\0\0\0\x0a\0\0\0\x051d2395c67a5850facab8c024643213e4ddb91a2e0ff001ed9716a93b8c422395\
    =\0\0\0\0\0\0\0\x01v",
    },
    Left {
        namespace: b"dd",
        key: b"same",
        row: Some(LeftRow {
            value: b"v",
            block: 7,
            tx: 3,
            policy: "",
        }),
        history: b"\0\0\0\0\0\0\0\x07\0\0\0\x036f807df805d3681972216702a71b2508bfff1422f342c1f48bd3365f509292f8\
    =\0\0\0\0\0\0\0\x01v",
    },
    Left {
        namespace: b"dd",
        key: b"t",
        row: Some(LeftRow {
            value: b"v",
            block: 13,
            tx: 2,
            policy: "",
        }),
        history: b"\0\0\0\0\0\0\0\x0d\0\0\0\x02328e4e179b8da6806f3b788e7c516bb1afc14baab67ade113645a4c0ab192cf2\
    =\0\0\0\0\0\0\0\x01v",
    },
    Left {
        namespace: b"either",
        key: b"x",
        row: Some(LeftRow {
            value: b"v",
            block: 11,
            tx: 0,
            policy: "",
        }),
        history: b"\0\0\0\0\0\0\0\x0b\0\0\0\09e1b71594d547b64ef44abbc21e2d0012994b1efe35c8dc0c3f3903ebfe72c85=\
    \0\0\0\0\0\0\0\x01v",
    },
    Left {
        namespace: b"greedy",
        key: b"x",
        row: Some(LeftRow {
            value: b"v",
            block: 11,
            tx: 2,
            policy: "",
        }),
        history: b"\0\0\0\0\0\0\0\x0b\0\0\0\x022ebf8b163b473f13a63580e0880fb0ea013001a20c8907e97971c6872839daf0\
    =\0\0\0\0\0\0\0\x01v",
    },
    Left {
        namespace: b"nested",
        key: b"x",
        row: Some(LeftRow {
            value: b"v",
            block: 11,
            tx: 3,
            policy: "",
        }),
        history: b"\0\0\0\0\0\0\0\x0b\0\0\0\x0359977536b123d39a1e762d90c444f249595c5bdb10ef2b221e3c5bcdf164aef7\
    =\0\0\0\0\0\0\0\x01v",
    },
    Left {
        namespace: b"pair",
        key: b"x",
        row: Some(LeftRow {
            value: b"v",
            block: 10,
            tx: 2,
            policy: "",
        }),
        history: b"\0\0\0\0\0\0\0\x0a\0\0\0\x02e7fe2921339451d07f2e2956ffc5c928997503462effe77bed49dc2cc2cf4482\
    =\0\0\0\0\0\0\0\x01v\0\0\0\0\0\0\0\x0a\0\0\0\x01160208dfad75c74f88ec5218b6733fce6452a330ad82\
    430409c74e0b4027830d=\0\0\0\0\0\0\0\x01v",
    },
    Left {
        namespace: b"zz",
        key: b"x",
        row: None,
        history: b"",
    },
];
