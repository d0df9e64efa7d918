ghost use Rattle.std.specs.Prelude.{◌≡◌, ◌<◌, ◌^◌, length, IfOk};
ghost use Rattle.rules.specs.Commit.{uses_from};
ghost use Rattle.rules.specs.Delta.{uses_in};
ghost use Rattle.rules.specs.Fold as fold;
ghost use Rattle.rules.specs.Job.{Job};

use crate::delta::NewUse;
use crate::first_use::FirstUse;
use crate::flag::Flag;
use std::alloc::{AllocError, Global};
use transaction::TxId;

/// The uses of the ids that a block's places use, in order, each with its place's flag, as every job has them that has
/// this number and these flags. Linear in the places, in time and memory.
pub fn uses_of(
    alloc: Global,
    block: u64,
    ids: &[Option<TxId>],
    flags: &[Flag],
) -> Result<Vec<NewUse>, AllocError>
    requires same { length ids.now ≡ length flags.now }
    requires few { length ids.now < 2 ^ 32 }
    ensures { IfOk result (λ uses. (j : Job) → j.number ≡ block → flags.now ≡ fold.flags j → uses_in uses.items ≡ uses_from j 0 ids.now) }
{
    let mut uses = Vec::new(alloc);
    for (place, id) in ids.iter().enumerate() {
        if let Some(id) = id {
            let first_use = FirstUse {
                block,
                place: place as u32,
                flag: flags[place],
            };
            uses.push(NewUse { id: *id, first_use })?;
        }
    }
    Ok(uses)
}
