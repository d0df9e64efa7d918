//! The signatures of a block, for a caller who checks them.
ghost use Rattle.std.specs.Prelude.{◌≡◌, Result};
ghost use Rattle.block.specs.declared.fault.BlockFault.{BlockFault};
ghost use Rattle.verdict_lists.specs.declared.listing.ListedVerdicts.{ListedVerdicts};
ghost use Rattle.c_calls.specs.Lists.{IsListed, ListTold};

use crate::buffers::{put_bytes, put_verdicts};
use crate::codes::{MALFORMED, MEMORY, OK, SMALL};
use block::BlockFault;
use std::alloc::Global;
use verdict_lists::{ListedVerdicts, list_verdicts};
use verdicts::Verdict;

/// How many bytes a pool has, and how many verdicts there are on them.
#[repr(C)]
#[derive(Clone, Copy)]
pub struct Sizes {
    pub pool: usize,
    pub verdicts: usize,
}

fn tell(
    listed: Result<ListedVerdicts, BlockFault>,
    pool: &mut [u8],
    verdicts: &mut [Verdict],
    sizes: &mut Sizes,
) -> u32
    ensures { ListTold listed pool.old pool.new verdicts.old verdicts.new sizes.old sizes.new result }
{
    match listed {
        Ok(listed) => {
            let (bytes, list) = (listed.pool.as_slice(), listed.verdicts.as_slice());
            sizes.pool = bytes.len();
            sizes.verdicts = list.len();
            if bytes.len() > pool.len() || list.len() > verdicts.len() {
                return SMALL;
            }
            put_bytes(pool, bytes);
            put_verdicts(verdicts, list);
            OK
        }
        Err(BlockFault::Memory) => MEMORY,
        Err(_) => MALFORMED,
    }
}

/// Lists the signatures of a block as verdicts that refuse all, and the bytes that these name; also those of a block that a ledger
/// would refuse.
pub fn fabcommit_list(
    alloc: Global,
    block: &[u8],
    pool: &mut [u8],
    verdicts: &mut [Verdict],
    sizes: &mut Sizes,
) -> u32
    ensures { (listed : Result ListedVerdicts BlockFault) × IsListed block.now listed
        × ListTold listed pool.old pool.new verdicts.old verdicts.new sizes.old sizes.new result }
{
    tell(list_verdicts(alloc, block), pool, verdicts, sizes)
}
