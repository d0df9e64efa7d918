//! The walk over the operations on a key, from the newest to the oldest.
ghost use Rattle.std.specs.Prelude.{◌≡◌, ◌<◌, ◌≤◌, None, All, Option};
ghost use Rattle.transaction.specs.declared.transaction.Version.{Version};
ghost use Rattle.rules.specs.Assignment.{Assignment};
ghost use Rattle.rules.specs.Sure.{Agrees};
ghost use Rattle.key_chains.specs.Known.{Known, valid_in};
ghost use Rattle.key_chains.specs.Decided.{MatchDecision};
ghost use Rattle.mvcc.specs.Versions.{noted_over, operated, version_over, IsOperator};
ghost use Rattle.mvcc.specs.Findings.{over_finding};

use key_chains::{Board, Decision, Kind, Operation, Operations};
use transaction::Version;

/// What the newer operations on a key tell of its version.
#[derive(Clone, Copy)]
pub(crate) enum Finding {
    /// The older ones say whether it has one. It is the noted one then, that of the newest policy write, if there is one.
    Open(Option<Version>),
    /// This is the version, or the key is absent.
    Settled(Option<Version>),
}

/// The older version, under the noted one of a newer policy write.
pub(crate) fn noted_over(noted: Option<Version>, older: Option<Version>) -> Option<Version>
    ensures { result ≡ noted_over noted older }
{
    match (noted, older) {
        (Some(newer), Some(_)) => Some(newer),
        (_, older) => older,
    }
}

/// One step: an operation, behind newer ones that noted this version.
fn look_at<B: Board>(
    number: u64,
    i: u32,
    operation: Operation,
    noted: Option<Version>,
    board: &mut B,
) -> Decision<Finding>
    requires earlier { operation.tx < i }
    requires board { i ≤ B.count board.old }
    ensures moves { B.moves board.old board.new }
    ensures decision { MatchDecision result
        (λ finding. (called : Assignment) (older : Option Version) → Agrees (valid_in (B.known board.new)) i called → noted_over noted (operated number called operation older) ≡ over_finding finding older)
        (λ h. (h ≡ operation.tx) × ((B.known board.new).flag h ≡ None)) }
{
    let Some(flag) = board.flag(operation.tx) else {
        return Decision::Blocked(operation.tx);
    };
    if !flag.is_valid() {
        return Decision::Sure(Finding::Open(noted));
    }
    let version = Version {
        block: number,
        tx: operation.tx,
    };
    Decision::Sure(match operation.kind {
        Kind::Value => Finding::Settled(noted_over(noted, Some(version))),
        Kind::Delete => Finding::Settled(None),
        Kind::Policy => Finding::Open(Some(noted.unwrap_or(version))),
    })
}

/// What the operations before candidate i tell, whatever the key's version was before them. Stops at the first whose
/// flag is unknown, and at the newest that counts and says whether the key is there.
pub(crate) fn walk<B: Board>(
    number: u64,
    i: u32,
    operations: Operations<'_>,
    board: &mut B,
) -> Decision<Finding>
    requires earlier { All (λ o. o.tx < i) operations }
    requires board { i ≤ B.count board.old }
    ensures moves { B.moves board.old board.new }
    ensures decision { MatchDecision result
        (λ finding. (called : Assignment) (before : Option Version) → Agrees (valid_in (B.known board.new)) i called → version_over number called operations.entry before ≡ over_finding finding before)
        (λ h. IsOperator h operations.entry × ((B.known board.new).flag h ≡ None)) }
{
    let mut noted = None;
    for operation in operations {
        match look_at(number, i, operation, noted, board) {
            Decision::Sure(Finding::Open(newest)) => noted = newest,
            Decision::Sure(Finding::Settled(version)) => {
                return Decision::Sure(Finding::Settled(version));
            }
            Decision::Blocked(h) => return Decision::Blocked(h),
        }
    }
    Decision::Sure(Finding::Open(noted))
}
