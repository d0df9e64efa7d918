//! Who wrote a key last.
ghost use Rattle.std.specs.Prelude.{◌≡◌, ◌<◌, ◌≤◌, All, is_some, length};
ghost use Rattle.std.specs.FinMap.{get};
ghost use Rattle.rules.specs.Flags.{is_valid};
ghost use Rattle.rules.specs.Fold.{running, flag};
ghost use Rattle.reasons.specs.First.{last_below};
ghost use Rattle.reasons.specs.Reads.{writes_row};
ghost use Rattle.key_chains.specs.Shown.{Shows};
ghost use Rattle.reasons_from_state.specs.Writers.{is_policy, sets, last_setter};

use crate::verdicts::flag_of;
use key_chains::{Job, Kind, Operation, Operations, PlainBoard, StateKey};

fn is_policy(kind: Kind) -> bool
    ensures { result ≡ is_policy kind }
{
    matches!(kind, Kind::Policy)
}

/// Whether it is of a valid transaction and sets the row of its key. A policy alone is written to a row that is there, and
/// makes none.
fn sets_row(job: &Job<'_, '_>, operation: Operation, is_there: bool, board: &PlainBoard) -> bool
    requires place { operation.tx < length job.now.candidates }
    requires shown { Shows job.now board.now }
    ensures { result ≡ sets (λ h. is_valid (flag job.now h)) is_there operation }
{
    flag_of(job, operation.tx, board).is_valid() && (is_there || !is_policy(operation.kind))
}

fn last_setter(
    job: &Job<'_, '_>,
    i: u32,
    operations: Operations<'_>,
    is_there: bool,
    board: &PlainBoard,
) -> Option<u32>
    requires place { i ≤ length job.now.candidates }
    requires shown { Shows job.now board.now }
    requires earlier { All (λ o. o.tx < i) operations }
    ensures { result ≡ last_setter (λ h. is_valid (flag job.now h)) is_there operations.entry }
{
    for operation in operations {
        if sets_row(job, operation, is_there, board) {
            return Some(operation.tx);
        }
    }
    None
}

/// The last valid transaction before i that wrote or deleted the row of a key, which is there before i or isn't.
pub(crate) fn last_writer(
    job: &Job<'_, '_>,
    i: u32,
    key: &StateKey<'_>,
    is_there: bool,
    board: &PlainBoard,
) -> Option<u32>
    requires place { i ≤ length job.now.candidates }
    requires shown { Shows job.now board.now }
    requires there { is_there ≡ is_some (get (running job.now i).state key.now) }
    ensures { result ≡ last_below (writes_row job.now key.now) i }
{
    last_setter(job, i, job.operations_before(i, key), is_there, board)
}
