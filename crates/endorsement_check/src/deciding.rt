//! The endorsement check.
ghost use Rattle.std.specs.Prelude.{◌≡◌, ◌<◌, ◌≤◌, ◌||◌, ℕ, None, IsSome, length, map};
ghost use Rattle.std.specs.List.{list_any};
ghost use Rattle.std.specs.Str.{bytes_eq};
ghost use Rattle.std.specs.FinMap.{get};
ghost use Rattle.rules.specs.Endorsement.{meets};
ghost use Rattle.rules.specs.Sure.{Sure};
ghost use Rattle.rules.specs.Assignment.{endorsement_under};
ghost use Rattle.rules.specs.Depends.{EndorsementDepends};
ghost use Rattle.key_chains.specs.Job.{IsOpened};
ghost use Rattle.key_chains.specs.Known.{Known, Grows};
ghost use Rattle.key_chains.specs.Decided.{MatchDecision};

use crate::policies::meets;
use crate::writes::{has_writes, may_write_all};
use candidates::Candidate;
use key_chains::{Board, Decision, Job, OpenTx};

/// Whether the policy of the named chaincode is satisfied, if no written key has its namespace.
fn chaincode_passes(job: &Job<'_, '_>, open_tx: &OpenTx<'_>) -> bool
    ensures { result ≡ (list_any (λ k. bytes_eq open_tx.now.tx.chaincode k.0) (map (λ w. w.key) open_tx.now.written.items) || meets open_tx.now.signers (get job.now.definitions open_tx.now.tx.chaincode)) }
{
    let chaincode = &open_tx.tx.chaincode;
    has_writes(open_tx.written.as_slice(), chaincode)
        || meets(&open_tx.signers, job.definition(chaincode))
}

/// Whether open transaction i passes the endorsement rule.
fn open_passes<B: Board>(
    job: &Job<'_, '_>,
    i: u32,
    open_tx: &OpenTx<'_>,
    board: &mut B,
) -> Decision<bool>
    requires opened { IsOpened job.now i open_tx.now }
    requires board { i ≤ B.count board.old }
    ensures moves { B.moves board.old board.new }
    ensures decision { MatchDecision result
        (λ v. Sure (endorsement_under job.now) (B.known board.new).endorsed i v)
        (λ h. EndorsementDepends job.now i h × ((B.known board.new).endorsed h ≡ None)) }
{
    // what needs no other verdict goes first
    if !chaincode_passes(job, open_tx) {
        return Decision::Sure(false);
    }
    may_write_all(job, i, &open_tx.signers, open_tx.written.as_slice(), board)
}

/// Whether candidate i passes the endorsement rule; a flagged one doesn't, and an update needs to satisfy the admin
/// policy.
///
/// `Sure` only with the answer that holds no matter what the unknown endorsements before i will be. `Blocked(h)`: h is
/// before i, writes the policy of a key that i writes, and whether h passes is unknown; the answer may be the same
/// either way. If all before i are known at the call, it is `Sure`.
///
/// For each key that i writes, the cost is that of evaluating the policy that governs it, and of a look at the earlier
/// candidates that write its policy, down to the newest that passed.
pub fn decide<B: Board>(job: &Job<'_, '_>, i: u32, board: &mut B) -> Decision<bool>
    requires place { i < length job.now.candidates }
    requires board { B.count board.old ≡ length job.now.candidates }
    ensures moves { B.moves board.old board.new }
    ensures grows { Grows (B.known board.old) (B.known board.new) }
    ensures decision { MatchDecision result
        (λ v. Sure (endorsement_under job.now) (B.known board.new).endorsed i v)
        (λ h. EndorsementDepends job.now i h × ((B.known board.new).endorsed h ≡ None)) }
    ensures decided { ((h : ℕ) → h < i → IsSome ((B.known board.old).endorsed h)) → MatchDecision result (λ _. Unit {0}) (λ _. ⊥) }
{
    match job.candidate(i) {
        Candidate::Flagged(_) => Decision::Sure(false),
        Candidate::Updates(update) => Decision::Sure(meets(&update.signers, job.admin())),
        Candidate::Opened(open_tx) => open_passes(job, i, open_tx, board),
    }
}
