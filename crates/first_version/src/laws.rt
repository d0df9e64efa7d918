ghost use Rattle.std.specs.Prelude.{◌≡◌, ◌≢◌, ◌<◌, ℕ, List, map, Result, Err, slice_index};
ghost use Rattle.std.specs.List.{AllByRecursion};
ghost use Rattle.policy_eval.specs.Accepts.{Accepts};
ghost use Rattle.channel.specs.Configuration as channel;
ghost use Rattle.rules.specs.declared.answer.Accepted as now;
ghost use Rattle.rules.specs.declared.answer.Refused.{Refused};
ghost use Rattle.rules.specs.declared.answer.Refused.TheVariants.{Memory};
ghost use Rattle.rules.specs.World as world;
ghost use Rattle.rules.specs.Step as step;
ghost use Rattle.rules.specs.Chain as chain;
ghost use Rattle.first_version.specs.Answer.{Accepted};
ghost use Rattle.first_version.specs.AnswersThen.{answers_then};
ghost use Rattle.first_version.specs.AsBefore.{StepsAsBefore};
ghost use Rattle.first_version.specs.Chain.{Chain};
ghost use Rattle.first_version.specs.Configuration.{Configuration};
ghost use Rattle.first_version.specs.Seen.{seen_channel, seen, seen_answer, IsFirst, IsNoSecond};
ghost use Rattle.first_version.specs.Step.{Step};
ghost use Rattle.first_version.specs.World.{World, empty_world};

/// Proved (the function does nothing at run time): if the world's version is 1 and the bytes don't begin with the magic
/// of version 2, a step is one of the first version over the world's definitions, and leaves version and definitions
/// unchanged. And so a chain of such byte strings, from the empty world of a channel, is one of the first version: the
/// same refusals or flags, values, versions, key policies, history, first uses, blocks and header hashes.
pub fn first_version_steps_as_before()
    ensures step { (channel : channel.Configuration) (accepts : Accepts) (old new : world.World) (bytes : List ℕ) (answer : Result now.Accepted Refused)
        → step.Step channel accepts old bytes answer new → StepsAsBefore channel accepts old bytes answer new }
    ensures chain { (channel : channel.Configuration) (new : world.World) (submissions : List chain.Submission) (answers : List (Result now.Accepted Refused))
        → AllByRecursion (λ s. IsNoSecond s.bytes) submissions
        → chain.Chain channel (world.empty_world channel.definitions) submissions answers new
        → Chain (seen_channel channel channel.definitions) empty_world submissions (map seen_answer answers) (seen new) }
{}

/// Proved (the function does nothing at run time): a chain from the empty world of a channel that ends in version 1
/// leaves the channel's definitions unchanged. It is a chain of the first version over the same byte strings, and the
/// worlds after it are the same. The answers are, too, except to byte strings that begin with the magic of version 2:
/// each of them was rejected, and the first version rejects it for its magic.
pub fn chains_that_end_in_version_1()
    ensures definitions { (channel : channel.Configuration) (new : world.World) (submissions : List chain.Submission) (answers : List (Result now.Accepted Refused))
        → chain.Chain channel (world.empty_world channel.definitions) submissions answers new → IsFirst new → new.definitions ≡ channel.definitions }
    ensures chain { (channel : channel.Configuration) (new : world.World) (submissions : List chain.Submission) (answers : List (Result now.Accepted Refused))
        → chain.Chain channel (world.empty_world channel.definitions) submissions answers new → IsFirst new
        → Chain (seen_channel channel channel.definitions) empty_world submissions (answers_then submissions answers) (seen new) }
{}

/// Proved (the function does nothing at run time): the step of the first version is a function, out of memory aside. A
/// world and a byte string have one answer and one world after it.
pub fn one_first_version_step()
    ensures some_answer { (channel : Configuration) (accepts : Accepts) (old : World) (bytes : List ℕ) → ((i : ℕ) → slice_index bytes i < 256)
        → (x : Result Accepted Refused) × (new : World) × Step channel accepts old bytes x new × (x ≢ Err Memory) }
    ensures one_answer { (channel : Configuration) (accepts : Accepts) (old a b : World) (bytes : List ℕ) (x y : Result Accepted Refused)
        → Step channel accepts old bytes x a → Step channel accepts old bytes y b → x ≢ Err Memory → y ≢ Err Memory
        → (x ≡ y) × (a ≡ b) }
{
    rules::one_step();
    block::one_reading();
    block::one_first_version_reading();
}
