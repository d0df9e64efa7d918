ghost use Rattle.std.specs.Prelude.{ℕ, List, map, Result};
ghost use Rattle.policy_eval.specs.Accepts.{Accepts};
ghost use Rattle.query.specs.declared.receipt.Receipt.{Receipt};
ghost use Rattle.rules.specs.Chain.{Chain};
ghost use Rattle.commit.specs.declared.not_committed.NotCommitted.{NotCommitted};
ghost use Rattle.commit.specs.Committing.{Committing, Runs, answer_in, world_of};
ghost use Rattle.next_block.specs.Submissions.{submissions};

/// A law, without work: a ledger on one thread may give the answers that a committer gives to a list of strings, and reach
/// the world that it has published after them. Where the committer stops, that is the ledger's want of memory.
pub fn a_run_is_a_chain()
    ensures { (accepts : Accepts) (old new : Committing) (blocks : List (List ℕ)) (answers : List (Result Receipt NotCommitted))
        → Runs accepts old blocks answers new
        → Chain old.channel (world_of old) (submissions accepts blocks) (map answer_in answers) (world_of new) }
{}
