ghost use Rattle.std.specs.Prelude.{◌≡◌, ℕ, List, map, Option, Result};
ghost use Rattle.transaction.specs.declared.item.Item.{Item};
ghost use Rattle.policy_eval.specs.Accepts.{Accepts};
ghost use Rattle.channel.specs.Configuration.{Configuration};
ghost use Rattle.rules.specs.declared.answer.Accepted.{Accepted};
ghost use Rattle.rules.specs.declared.answer.Refused.{Refused};
ghost use Rattle.rules.specs.World.{World};
ghost use Rattle.rules.specs.Step.{Step};
ghost use Rattle.reasons.specs.declared.reason.Reason.{Reason};
ghost use Rattle.reasons.specs.Reason.{IsReason, AreReasons};
ghost use Rattle.signature_requests.specs.declared.request.Request.{Request};
ghost use Rattle.signature_requests.specs.Requests.{requests_in, AreRequests};
ghost use Rattle.signature_requests.specs.Agreement.{answer_to, AgreeOn, AgreeOnBytes};
ghost use Rattle.signature_requests.specs.Told.{told};

/// A law, and no work: whatever the channel, the world and the bytes, two verifiers that agree on the requests of the block that the
/// bytes spell make the same step: the same answer, and the same world after it. Of bytes that spell no block nothing is asked.
pub fn verifiers_that_agree_make_one_step()
    ensures { (channel : Configuration) (accepts others : Accepts) (old new : World) (bytes : List ℕ) (answer : Result Accepted Refused)
        → AgreeOnBytes accepts others bytes → Step channel accepts old bytes answer new → Step channel others old bytes answer new }
{}

/// A law, and no work: two verifiers that agree on the requests of the items of a block give each of them the same reason, over
/// every world.
pub fn verifiers_that_agree_give_one_reason()
    ensures each { (channel : Configuration) (accepts others : Accepts) (w : World) (items : List (Option Item)) (i : ℕ) (reason : Reason)
        → AgreeOn accepts others (requests_in items) → IsReason channel accepts w items i reason → IsReason channel others w items i reason }
    ensures all { (channel : Configuration) (accepts others : Accepts) (w : World) (items : List (Option Item)) (reasons : List Reason)
        → AgreeOn accepts others (requests_in items) → AreReasons channel accepts w items reasons → AreReasons channel others w items reasons }
{}

/// Laws, and no work: bytes have one list of requests at most, and verifiers that agree on that list agree on the bytes.
pub fn bytes_have_one_list_of_requests()
    ensures one_list { (bytes : List ℕ) (a b : List Request) → AreRequests bytes a → AreRequests bytes b → a ≡ b }
    ensures agreement { (accepts others : Accepts) (bytes : List ℕ) (requests : List Request)
        → AreRequests bytes requests → AgreeOn accepts others requests → AgreeOnBytes accepts others bytes }
{
    block::one_reading();
}

/// Laws, and no work: a verifier that was told the answers to a list of requests, and accepts nothing else, agrees on that list with
/// who gave them. So, told the answers to the list of the bytes, it makes the same step, and of the items, it gives the same reasons.
pub fn answers_to_the_list_suffice()
    ensures agreement { (accepts : Accepts) (requests : List Request) → AgreeOn (told requests (map (answer_to accepts) requests)) accepts requests }
    ensures step { (channel : Configuration) (accepts : Accepts) (old new : World) (bytes : List ℕ) (requests : List Request) (answer : Result Accepted Refused)
        → AreRequests bytes requests → Step channel (told requests (map (answer_to accepts) requests)) old bytes answer new → Step channel accepts old bytes answer new }
    ensures reasons { (channel : Configuration) (accepts : Accepts) (w : World) (items : List (Option Item)) (reasons : List Reason)
        → AreReasons channel (told (requests_in items) (map (answer_to accepts) (requests_in items))) w items reasons → AreReasons channel accepts w items reasons }
{
    block::one_reading();
}
