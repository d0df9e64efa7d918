ghost use Rattle.std.specs.Prelude.{ℕ, List};
ghost use Rattle.policy_eval.specs.Accepts.{Accepts};
ghost use Rattle.channel.specs.Configuration.{Configuration};
ghost use Rattle.rules.specs.World.{World};
ghost use Rattle.reasons.specs.declared.reason.Reason.{Reason};
ghost use Rattle.ledger.specs.NextReasons.{AreNextReasons};
ghost use Rattle.signature_requests.specs.Agreement.{answer_to};
ghost use Rattle.verdicts.specs.declared.verdict.Verdict.{Verdict};
ghost use Rattle.verdicts.specs.Said.{accepted_by};
ghost use Rattle.verdict_lists.specs.Listed.{AreVerdicts};
ghost use Rattle.reason_lists.specs.declared.listing.ListedReasons.{ListedReasons};
ghost use Rattle.reason_lists.specs.Explained.{AreNextListed};
ghost use Rattle.reason_lists.specs.Pooled.{AreListed};
ghost use Rattle.reason_lists.specs.Reading.{SayAll};

use verdict_lists::answered_verdicts_suffice;

/// A law, and no work: all that reasons say is read out of their records, by the pieces of the pool and the list of identities.
pub fn listed_reasons_say_all()
    ensures { (number : ℕ) (reasons : List Reason) (l : ListedReasons) → AreListed number reasons l → SayAll number l.pool l.identities reasons l.reasons }
{}

/// Laws, and no work. Let the listed verdicts of a block be answered by a verifier. Then who goes by these verdicts finds the reasons of
/// that verifier, whatever the channel and the world.
pub fn answered_verdicts_suffice_for_reasons()
    ensures reasons { (channel : Configuration) (accepts : Accepts) (w : World) (bytes pool : List ℕ) (verdicts : List Verdict) (reasons : List Reason)
        → AreVerdicts (answer_to accepts) bytes pool verdicts → AreNextReasons channel (accepted_by pool verdicts) w bytes reasons → AreNextReasons channel accepts w bytes reasons }
    ensures listed { (channel : Configuration) (accepts : Accepts) (w : World) (bytes pool : List ℕ) (verdicts : List Verdict) (l : ListedReasons)
        → AreVerdicts (answer_to accepts) bytes pool verdicts → AreNextListed channel (accepted_by pool verdicts) w bytes l → AreNextListed channel accepts w bytes l }
{
    answered_verdicts_suffice();
}
