//! The known verdicts of one candidate.
ghost use Rattle.std.specs.Prelude.{◌≡◌, ◌<◌, length};
ghost use Rattle.rules.specs.Fold.{endorsed, flag};
ghost use Rattle.key_chains.specs.Shown.{Shows};

use key_chains::{Job, PlainBoard};
use rules::Flag;

/// Its flag.
pub(crate) fn flag_of(_job: &Job<'_, '_>, i: u32, board: &PlainBoard) -> Flag
    requires place { i < length _job.now.candidates }
    requires shown { Shows _job.now board.now }
    ensures { result ≡ flag _job.now i }
{
    let Some(flag) = board.cells(i).flag else {
        unreachable!()
    };
    flag
}

/// Whether it passed the endorsement rule.
pub(crate) fn has_passed(_job: &Job<'_, '_>, i: u32, board: &PlainBoard) -> bool
    requires place { i < length _job.now.candidates }
    requires shown { Shows _job.now board.now }
    ensures { result ≡ endorsed _job.now i }
{
    let Some(passed) = board.cells(i).endorsed else {
        unreachable!()
    };
    passed
}
