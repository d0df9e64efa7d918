ghost use Rattle.std.specs.Prelude.{ℕ, List, Result};
ghost use Rattle.block.specs.declared.block.Block.{Block};
ghost use Rattle.block.specs.Grammar.{Spells};
ghost use Rattle.policy_eval.specs.Accepts.{Accepts};
ghost use Rattle.channel.specs.Configuration.{Configuration};
ghost use Rattle.rules.specs.declared.answer.Accepted.{Accepted};
ghost use Rattle.rules.specs.declared.answer.Refused.{Refused};
ghost use Rattle.rules.specs.World.{World};
ghost use Rattle.rules.specs.Step.{Step};
ghost use Rattle.rules.specs.Commit.{items_of};
ghost use Rattle.reasons.specs.declared.reason.Reason.{Reason};
ghost use Rattle.reasons.specs.Reason.{AreReasons};
ghost use Rattle.signature_requests.specs.Agreement.{answer_to, AgreeOnBytes};
ghost use Rattle.verdicts.specs.declared.verdict.Verdict.{Verdict};
ghost use Rattle.verdicts.specs.Said.{accepted_by};
ghost use Rattle.verdict_lists.specs.Listed.{AreVerdicts};

use signature_requests::{
    bytes_have_one_list_of_requests, verifiers_that_agree_give_one_reason,
    verifiers_that_agree_make_one_step,
};

/// Laws, and no work. Let the listed verdicts of a block be answered by a verifier. Then who goes by these verdicts agrees with that
/// verifier on all that the block may ask. So it makes the same step, whatever the channel and the world, and gives the same reasons.
pub fn answered_verdicts_suffice()
    ensures agreement { (accepts : Accepts) (bytes pool : List ℕ) (verdicts : List Verdict)
        → AreVerdicts (answer_to accepts) bytes pool verdicts → AgreeOnBytes (accepted_by pool verdicts) accepts bytes }
    ensures step { (channel : Configuration) (accepts : Accepts) (old new : World) (bytes pool : List ℕ) (verdicts : List Verdict) (answer : Result Accepted Refused)
        → AreVerdicts (answer_to accepts) bytes pool verdicts → Step channel (accepted_by pool verdicts) old bytes answer new → Step channel accepts old bytes answer new }
    ensures reasons { (channel : Configuration) (accepts : Accepts) (w : World) (bytes pool : List ℕ) (verdicts : List Verdict) (b : Block) (reasons : List Reason)
        → AreVerdicts (answer_to accepts) bytes pool verdicts → Spells bytes b → AreReasons channel (accepted_by pool verdicts) w (items_of b) reasons → AreReasons channel accepts w (items_of b) reasons }
{
    bytes_have_one_list_of_requests();
    verifiers_that_agree_make_one_step();
    verifiers_that_agree_give_one_reason();
}
