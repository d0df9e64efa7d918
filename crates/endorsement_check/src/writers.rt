//! The earlier candidates that write a key's policy.
ghost use Rattle.std.specs.Prelude.{◌≡◌, ◌<◌, ◌≤◌, None, All};
ghost use Rattle.std.specs.List.{list_any, Contains};
ghost use Rattle.rules.specs.Sure.{Sure};
ghost use Rattle.key_chains.specs.Known.{Known};
ghost use Rattle.key_chains.specs.Decided.{MatchDecision};

use key_chains::{Board, Decision, PolicyWriters};

/// Whether one of these candidates before i passed. Stops at the first that did, and at the first that is unknown.
pub(crate) fn any_passed<B: Board>(
    i: u32,
    writers: PolicyWriters<'_>,
    board: &mut B,
) -> Decision<bool>
    requires earlier { All (λ h. h < i) writers }
    requires board { i ≤ B.count board.old }
    ensures moves { B.moves board.old board.new }
    ensures decision { MatchDecision result
        (λ v. Sure (λ called _. list_any called writers.entry) (B.known board.new).endorsed i v)
        (λ h. Contains writers.entry h × ((B.known board.new).endorsed h ≡ None)) }
{
    for h in writers {
        match board.endorsed(h) {
            Some(true) => return Decision::Sure(true),
            Some(false) => {}
            None => return Decision::Blocked(h),
        }
    }
    Decision::Sure(false)
}
