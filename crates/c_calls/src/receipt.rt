//! What C is told of a block.
ghost use Rattle.std.specs.Prelude.{◌≡◌};
ghost use Rattle.c_calls.specs.Receipts.{code_of, code_after, fault_number, refused_receipt, receipt_after, receipt_of};

use crate::codes::{
    MALFORMED, MEMORY, OK, OLD_VERSION, WRONG_DATA_HASH, WRONG_NUMBER, WRONG_PREVIOUS,
};
use block::BlockFault;
use rules::{Accepted, CommittedBlock, Refused};

/// Of an accepted block its number (twice), how many flags it has, and its hashes. Of one of a wrong number the number that is next, and
/// the block's. Of bytes that spell no block the number of their first fault, from 1 (`got`).
#[repr(C)]
#[derive(Clone, Copy)]
pub struct Receipt {
    pub number: u64,
    pub got: u64,
    pub flags: usize,
    pub header_hash: [u8; 32],
    pub commit_hash: [u8; 32],
}

/// The code of a refusal.
pub(crate) fn code(refused: Refused) -> u32
    ensures { result ≡ code_of refused }
{
    match refused {
        Refused::Malformed(_) => MALFORMED,
        Refused::WrongNumber { .. } => WRONG_NUMBER,
        Refused::WrongPrevious => WRONG_PREVIOUS,
        Refused::WrongDataHash => WRONG_DATA_HASH,
        Refused::OldVersion => OLD_VERSION,
        Refused::Memory => MEMORY,
    }
}

/// The number of a fault of a block's bytes, in the order of their list. Want of memory is none of theirs.
pub(crate) fn fault_number(fault: BlockFault) -> u64
    ensures { result ≡ fault_number fault }
{
    match fault {
        BlockFault::BadMagic => 1,
        BlockFault::Truncated => 2,
        BlockFault::PreviousLength => 3,
        BlockFault::TooManyTxs => 4,
        BlockFault::TxTooLong => 5,
        BlockFault::TrailingBytes => 6,
        BlockFault::Memory => 0,
    }
}

/// Tells of a refusal what stands beside its code.
fn tell_refused(receipt: &mut Receipt, refused: Refused)
    ensures { receipt.new ≡ refused_receipt refused receipt.old }
{
    match refused {
        Refused::Malformed(fault) => receipt.got = fault_number(fault),
        Refused::WrongNumber { want, got } => {
            receipt.number = want;
            receipt.got = got;
        }
        Refused::WrongPrevious | Refused::WrongDataHash | Refused::OldVersion | Refused::Memory =>
            {}
    }
}

/// Tells what came of a block.
pub(crate) fn tell(receipt: &mut Receipt, submitted: Result<Accepted, Refused>) -> u32
    ensures code { result ≡ code_after submitted }
    ensures receipt { receipt.new ≡ receipt_after submitted receipt.old }
{
    match submitted {
        Ok(accepted) => {
            *receipt = Receipt {
                number: accepted.number,
                got: accepted.number,
                flags: accepted.flags.len(),
                header_hash: accepted.header_hash,
                commit_hash: accepted.commit_hash,
            };
            OK
        }
        Err(refused) => {
            tell_refused(receipt, refused);
            code(refused)
        }
    }
}

/// Tells what is known of an accepted block.
pub(crate) fn tell_block(receipt: &mut Receipt, number: u64, block: &CommittedBlock)
    ensures { receipt.new ≡ receipt_of number block.now }
{
    *receipt = Receipt {
        number,
        got: number,
        flags: block.flags.len(),
        header_hash: block.header_hash,
        commit_hash: block.commit_hash,
    };
}
