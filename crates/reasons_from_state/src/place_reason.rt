//! The reason of a place of a block.
ghost use Rattle.std.specs.Prelude.{◌≡◌, ◌<◌, ◌≤◌, List, Some, Option, length, map, IfOk};
ghost use Rattle.block.specs.Limits.{max_txs};
ghost use Rattle.transaction.specs.declared.item.Item.{Item};
ghost use Rattle.transaction.specs.Items.{item_of};
ghost use Rattle.policy_eval.specs.Accepts.{Accepts};
ghost use Rattle.rules.specs.Candidate.{used_id};
ghost use Rattle.rules.specs.Commit.{job_of};
ghost use Rattle.rules.specs.Fold as fold;
ghost use Rattle.reasons.specs.declared.reason.Reason as reason_spec;
ghost use Rattle.reasons.specs.Reason.{item_at, IsReason};
ghost use Rattle.key_chains.specs.Shown.{Shows};

use crate::place::Place;
use crate::state_reasons::state_reason;
use crate::update_reasons::update_reason;
use candidates::Candidate;
use key_chains::{Job, PlainBoard};
use reasons::Reason;
use reasons_before_state::{FlaggedBlock, reason_in_bytes};
use std::alloc::{AllocError, Global};

/// Why place i of a block has its flag: `job` is the block's job over its world, `bytes` are the place's bytes, and `board` has all
/// verdicts of the job. Where these belong together there is a reason, and it is this one; of a valid place it costs nothing.
///
/// What was flagged before the rules on the state is decoded again. Signers are asked again for each key that their
/// transaction writes, up to the first that they may not write. A read or a range is looked up as the read check does it, and a walk
/// over the operations on its key finds who wrote it. A policy that isn't satisfied, also the admin policy of an update, is evaluated
/// twice more. Fails only where memory is refused: it takes memory for what the reason names, and for lists of keys.
pub fn reason_of(
    alloc: Global,
    block: &FlaggedBlock<'_>,
    job: &Job<'_, '_>,
    i: u32,
    bytes: &[u8],
    board: &mut PlainBoard,
) -> Result<Option<Reason>, AllocError>
    requires place { i < length job.now.candidates }
    requires ids { length block.now.ids.now ≡ length job.now.candidates }
    requires flags { block.now.flags.now ≡ fold.flags job.now }
    requires few { length block.now.ids.now ≤ max_txs }
    requires shown { Shows job.now board.old }
    ensures value { IfOk result (λ x. (accepts : Accepts) (items : List (Option Item)) (r : reason_spec.Reason) → job.now ≡ job_of block.now.channel.now accepts block.now.world.now items
        → block.now.ids.now ≡ map (used_id block.now.channel.now accepts) items → item_at items i ≡ item_of block.now.version bytes.now → IsReason block.now.channel.now accepts block.now.world.now items i r → x ≡ Some r) }
    ensures board { board.new ≡ board.old }
{
    let at = Place { job, i };
    match job.candidate(i) {
        Candidate::Flagged(flag) => reason_in_bytes(alloc, block, i, *flag, bytes),
        Candidate::Opened(open_tx) => state_reason(alloc, &at, open_tx, board),
        Candidate::Updates(open_update) => update_reason(alloc, &at, open_update, board),
    }
}
