ghost use Rattle.std.specs.Prelude.{◌≡◌, ℕ, List, Result, option_map};
ghost use Rattle.std.specs.FinMap.{get};
ghost use Rattle.block.specs.declared.block.Block.{Block};
ghost use Rattle.block.specs.Grammar.{Spells};
ghost use Rattle.policy.specs.Policies.{Policies};
ghost use Rattle.policy_eval.specs.Accepts.{Accepts};
ghost use Rattle.channel.specs.Configuration.{Configuration};
ghost use Rattle.rules.specs.declared.answer.Accepted.{Accepted};
ghost use Rattle.rules.specs.declared.answer.Refused.{Refused};
ghost use Rattle.rules.specs.State.{StateKey};
ghost use Rattle.rules.specs.CommitBytes.{BlockCommit, told_row, HasRoom};
ghost use Rattle.rules.specs.World.{World, empty_world, height_of, last_commit_hash};
ghost use Rattle.rules.specs.Linked.{IsLinked};
ghost use Rattle.rules.specs.Commit.{items_of, job_of, commit_by};
ghost use Rattle.rules.specs.Step.{Step};
ghost use Rattle.rules.specs.Chain.{Submission, Chain};
ghost use Rattle.chain_laws.specs.Room.{WorldHasRoom};
ghost use Rattle.chain_laws.specs.AcceptedBlock.{AcceptedBlock, commit_of, hash_before, hashed_of};
ghost use Rattle.chain_laws.specs.Commits.{AreCommits, NoneCollide, AreAllToldAlike};
ghost use Rattle.chain_laws.specs.ToldAlike.{AreToldAlike, DontCollide};

/// Proved (the function does nothing at run time): the empty world has room for what is hashed of a block, for any
/// definitions of the channel, and each step, and so each chain, leaves a world that has room.
pub fn steps_keep_room()
    ensures empty { (definitions : Policies) → WorldHasRoom (empty_world definitions) }
    ensures step { (channel : Configuration) (accepts : Accepts) (old new : World) (bytes : List ℕ) (answer : Result Accepted Refused)
        → WorldHasRoom old → Step channel accepts old bytes answer new → WorldHasRoom new }
    ensures chain { (channel : Configuration) (old new : World) (submissions : List Submission) (answers : List (Result Accepted Refused))
        → WorldHasRoom old → Chain channel old submissions answers new → WorldHasRoom new }
{}

/// Proved (the function does nothing at run time): no matter what was submitted from the empty world of a channel on,
/// each length and number of a block that is linked to the world after it has room in the bytes that are hashed of it.
/// And so of each block that is accepted.
pub fn accepted_blocks_have_room()
    ensures linked { (channel : Configuration) (accepts : Accepts) (w : World) (submissions : List Submission) (answers : List (Result Accepted Refused))
        (bytes : List ℕ) (b : Block) → Chain channel (empty_world channel.definitions) submissions answers w → Spells bytes b → IsLinked w b
        → HasRoom (commit_by b.version (job_of channel accepts w (items_of b))) }
    ensures accepted { (a : AcceptedBlock) → HasRoom (commit_of a) }
{}

/// Proved (the function does nothing at run time): if the same bytes are hashed of two accepted blocks, each after its
/// own chain, the commit hashes before them are the same, and so are version, number, flags, rows that differ and
/// replaced definition.
pub fn accepted_blocks_tell()
    ensures { (a b : AcceptedBlock) → hashed_of a ≡ hashed_of b → (hash_before a ≡ hash_before b) × AreToldAlike (commit_of a) (commit_of b) }
{}

/// Proved (the function does nothing at run time): if two accepted blocks get the same commit hash, and what is hashed
/// of them doesn't collide, the commit hashes before them are the same, and so are version, number, flags, rows that
/// differ and replaced definition.
pub fn equal_commit_hashes_tell()
    ensures { (a b : AcceptedBlock) → DontCollide (hashed_of a) (hashed_of b) → a.answer.commit_hash ≡ b.answer.commit_hash
        → (hash_before a ≡ hash_before b) × AreToldAlike (commit_of a) (commit_of b) }
{}

/// Proved (the function does nothing at run time): each chain from the empty world of a channel has commits. If two
/// such chains, of one channel or of two, led to the same height and the same commit hash, and what was hashed at each
/// height doesn't collide, then at each height version, number, flags, rows that differ and replaced definition are the
/// same, and after the chains each key has the same version, value and canonical policy text, or no row in either.
pub fn equal_commit_hashes_tell_the_chain()
    ensures commits { (channel : Configuration) (w : World) (submissions : List Submission) (answers : List (Result Accepted Refused))
        → Chain channel (empty_world channel.definitions) submissions answers w → (cs : List BlockCommit) × AreCommits channel cs w }
    ensures blocks { (first second : Configuration) (v w : World) (cs ds : List BlockCommit) → AreCommits first cs v → AreCommits second ds w
        → height_of v ≡ height_of w → last_commit_hash v ≡ last_commit_hash w → NoneCollide cs ds → AreAllToldAlike cs ds }
    ensures rows { (first second : Configuration) (v w : World) (cs ds : List BlockCommit) → AreCommits first cs v → AreCommits second ds w
        → height_of v ≡ height_of w → last_commit_hash v ≡ last_commit_hash w → NoneCollide cs ds
        → (k : StateKey) → option_map told_row (get v.state k) ≡ option_map told_row (get w.state k) }
{}
