//! What vectors/chain.py makes: a chain of 32 blocks with all that it leaves, and short chains.
#![tactic(auto)]

pub mod first_blocks;
pub mod later_blocks;
pub mod rows;
pub mod uses;
mod verifier;
pub mod worked_endorsers;
pub mod worked_ranges;
pub mod worked_reads;

pub use verifier::SaysOk;

/// Of the chain, and of the short ones.
pub const CHANNEL: &str = "channel ch
chaincode cc OR('Org1.peer','Org2.peer')
chaincode dd 'Org1.member'
chaincode both AND('Org1.peer','Org2.peer')
chaincode pair AND('Org1.peer','Org1.peer')
chaincode chief AND('Org1.member','Org1.admin')
chaincode either OR(AND('Org1.peer','Org2.peer'),'Org1.peer')
chaincode greedy AND(OR('Org1.peer','Org1.peer'),'Org1.peer')
chaincode nested OutOf(2,'Org1.peer',AND('Org1.peer','Org2.peer'),'Org1.peer')
";

/// A block with its header hash and the numbers of its flags.
pub struct Committed {
    pub bytes: &'static [u8],
    pub header_hash: &'static [u8; 32],
    pub flags: &'static [u8],
}

/// What is left at a key. Its history has for each entry, the newest first, the block in 8 bytes and the transaction in
/// 4, the id's 64 bytes, and `-` for a delete, or `=`, the length of the value in 8 bytes and the value.
pub struct Left {
    pub namespace: &'static [u8],
    pub key: &'static [u8],
    pub row: Option<LeftRow>,
    pub history: &'static [u8],
}

/// A value, its version, and the text of its own policy, which is empty if it has none.
#[derive(Clone, Copy)]
pub struct LeftRow {
    pub value: &'static [u8],
    pub block: u64,
    pub tx: u32,
    pub policy: &'static str,
}

/// The script of a block, and the numbers of its flags.
pub struct Scripted {
    pub script: &'static str,
    pub flags: &'static [u8],
}

/// The blocks of a chain, what they leave at each key that they write and at the keys `k` and `none` of `cc`, and the
/// first uses of their ids, encoded like those of `uses`.
pub struct WorkedChain {
    pub name: &'static str,
    pub blocks: &'static [Scripted],
    pub left: &'static [Left],
    pub uses: &'static [u8],
}

/// The first use of an id, with the number of its flag.
#[derive(Clone, Copy)]
pub struct Used {
    pub id: [u8; 64],
    pub block: u64,
    pub place: u32,
    pub flag: u8,
}

/// The first use that 67 bytes of `uses` encode.
pub fn read_use(bytes: &[u8; 67]) -> Used {
    let mut id = [0; 64];
    id.copy_from_slice(&bytes[..64]);
    Used {
        id,
        block: u64::from(bytes[64]),
        place: u32::from(bytes[65]),
        flag: bytes[66],
    }
}
