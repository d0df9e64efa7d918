use block::{Header, Previous};
use header_hash::{DataHasher, commit_hash, header_der, header_hash, tx_id};
use vectors::{Row, rows};

mod vectors;

// SHA-256 of `abc` (FIPS 180-4, example of NIST) and of no bytes.
const ABC: [u8; 32] = [
    0xba, 0x78, 0x16, 0xbf, 0x8f, 0x01, 0xcf, 0xea, 0x41, 0x41, 0x40, 0xde, 0x5d, 0xae, 0x22, 0x23,
    0xb0, 0x03, 0x61, 0xa3, 0x96, 0x17, 0x7a, 0x9c, 0xb4, 0x10, 0xff, 0x61, 0xf2, 0x00, 0x15, 0xad,
];

const NOTHING: [u8; 32] = [
    0xe3, 0xb0, 0xc4, 0x42, 0x98, 0xfc, 0x1c, 0x14, 0x9a, 0xfb, 0xf4, 0xc8, 0x99, 0x6f, 0xb9, 0x24,
    0x27, 0xae, 0x41, 0xe4, 0x64, 0x9b, 0x93, 0x4c, 0xa4, 0x95, 0x99, 0x1b, 0x78, 0x52, 0xb8, 0x55,
];

// SHA-256 of 32 zero bytes, 1, and 17 zero bytes (Python's hashlib): of the empty block 0.
const OF_EMPTY_BLOCK: [u8; 32] = [
    0x3b, 0x4c, 0xdd, 0xf9, 0x52, 0x76, 0x80, 0x76, 0x3e, 0x1b, 0x6c, 0x8d, 0x24, 0x8d, 0x0a, 0xdf,
    0x0f, 0x71, 0xc0, 0x2b, 0x76, 0x9a, 0x5e, 0xf7, 0xba, 0xeb, 0xce, 0xdf, 0x88, 0x72, 0x37, 0xae,
];

fn previous_of(row: &Row) -> Option<Previous> {
    match row.previous {
        [] => Some(Previous::Empty),
        bytes => {
            let hash = bytes.first_chunk::<32>()?;
            Some(Previous::Hash(*hash))
        }
    }
}

fn is_hashed(row: &Row) -> bool {
    let Some(previous) = previous_of(row) else {
        return false;
    };
    let header = Header {
        number: row.number,
        previous,
        data_hash: *row.data_hash,
    };
    header_der(&header).as_slice() == row.der && header_hash(&header) == *row.hash
}

#[test]
fn headers(rt: HostRuntime) {
    for (number, row) in rows().iter().enumerate() {
        assert!(rt; is_hashed(row), "row {number}");
    }
}

fn data_hash(txs: &[&[u8]]) -> [u8; 32] {
    let mut hasher = DataHasher::new();
    for tx in txs {
        hasher.add(tx);
    }
    hasher.finish()
}

#[test]
fn data_hashes_and_ids(rt: HostRuntime) {
    let nothing: [&[&[u8]]; 2] = [&[], &[b""]];
    assert!(rt; nothing.map(data_hash) == [NOTHING; 2]);
    let abc: [&[&[u8]]; 4] = [
        &[b"abc"],
        &[b"a", b"bc"],
        &[b"a", b"b", b"c"],
        &[b"", b"ab", b"", b"c"],
    ];
    assert!(rt; abc.map(data_hash) == [ABC; 4]);
    let id = b"ba7816bf8f01cfea414140de5dae2223b00361a396177a9cb410ff61f20015ad";
    assert!(rt; [tx_id(b"ab", b"c"), tx_id(b"", b"abc")] == [*id; 2]);
}

#[test]
fn commit_hashes(rt: HostRuntime) {
    let told = b"\x01\0\0\0\0\0\0\0\0\0\0\0\0\0\0\0\0\0";
    assert!(rt; commit_hash(&[0; 32], told, b"", b"") == OF_EMPTY_BLOCK);
    let (first, others) = told.split_at(1);
    let (second, third) = others.split_at(8);
    assert!(rt; commit_hash(&[0; 32], first, second, third) == OF_EMPTY_BLOCK);
    assert!(rt; commit_hash(&[0; 32], third, second, first) != OF_EMPTY_BLOCK);
    // What comes first counts.
    assert!(rt; commit_hash(&[1; 32], told, b"", b"") != OF_EMPTY_BLOCK);
}
