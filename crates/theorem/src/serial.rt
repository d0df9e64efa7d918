ghost use Rattle.std.specs.Prelude.{◌≡◌, ℕ, List, Result};
ghost use Rattle.block.specs.declared.block.Block.{Block};
ghost use Rattle.policy_eval.specs.Accepts.{Accepts};
ghost use Rattle.channel.specs.Configuration.{Configuration};
ghost use Rattle.rules.specs.declared.answer.Accepted.{Accepted};
ghost use Rattle.rules.specs.declared.answer.Refused.{Refused};
ghost use Rattle.rules.specs.Fold.{flags};
ghost use Rattle.rules.specs.World.{World};
ghost use Rattle.rules.specs.Commit.{items_of, job_of, world_after};
ghost use Rattle.rules.specs.Step.{accepted_of, Step};
ghost use Rattle.rules.specs.Chain.{Submission, Chain};
ghost use Rattle.theorem.specs.Serial.{after_block};
ghost use Rattle.theorem.specs.Step.{answer_to, ledger_after, Takes, TakesAll};

/// Proved: the flags of every block, and the state, histories, first uses and policies after it, are those of serial
/// execution.
pub fn blocks_are_executed_serially()
    ensures flags { (channel : Configuration) (accepts : Accepts) (w : World) (b : Block)
        → flags (job_of channel accepts w (items_of b)) ≡ (after_block channel accepts w b).flags }
    ensures state { (channel : Configuration) (accepts : Accepts) (w : World) (bytes : List ℕ) (b : Block)
        → (world_after channel accepts w bytes b).state ≡ (after_block channel accepts w b).state }
    ensures history { (channel : Configuration) (accepts : Accepts) (w : World) (bytes : List ℕ) (b : Block)
        → (world_after channel accepts w bytes b).history ≡ (after_block channel accepts w b).history }
    ensures first_uses { (channel : Configuration) (accepts : Accepts) (w : World) (bytes : List ℕ) (b : Block)
        → (world_after channel accepts w bytes b).first_uses ≡ (after_block channel accepts w b).first_uses }
    ensures policies { (channel : Configuration) (accepts : Accepts) (w : World) (bytes : List ℕ) (b : Block)
        → (world_after channel accepts w bytes b).definitions ≡ (after_block channel accepts w b).policies }
{}

/// Proved: the answer to a block and the ledger after it, commit hash included, are those of serial execution. So the
/// step that every other crate promises is the serial one, and the other way round; and so are lists of steps.
pub fn steps_are_serial()
    ensures answer { (channel : Configuration) (accepts : Accepts) (w : World) (b : Block)
        → accepted_of channel accepts w b ≡ answer_to channel accepts w b }
    ensures ledger { (channel : Configuration) (accepts : Accepts) (w : World) (bytes : List ℕ) (b : Block)
        → world_after channel accepts w bytes b ≡ ledger_after channel accepts w bytes b }
    ensures step { (channel : Configuration) (accepts : Accepts) (old new : World) (bytes : List ℕ) (answer : Result Accepted Refused)
        → Step channel accepts old bytes answer new → Takes channel accepts old bytes answer new }
    ensures step_back { (channel : Configuration) (accepts : Accepts) (old new : World) (bytes : List ℕ) (answer : Result Accepted Refused)
        → Takes channel accepts old bytes answer new → Step channel accepts old bytes answer new }
    ensures chain { (channel : Configuration) (old new : World) (submissions : List Submission) (answers : List (Result Accepted Refused))
        → Chain channel old submissions answers new → TakesAll channel old submissions answers new }
    ensures chain_back { (channel : Configuration) (old new : World) (submissions : List Submission) (answers : List (Result Accepted Refused))
        → TakesAll channel old submissions answers new → Chain channel old submissions answers new }
{}
