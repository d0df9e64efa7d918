ghost use Rattle.std.specs.Prelude.{◌≡◌, List, Option, Result};
ghost use Rattle.block.specs.declared.block.Block.{Block};
ghost use Rattle.channel.specs.Configuration.{Configuration};
ghost use Rattle.rules.specs.declared.answer.Accepted.{Accepted};
ghost use Rattle.rules.specs.declared.answer.Refused.{Refused};
ghost use Rattle.rules.specs.Chain.{Submission, Chain};
ghost use Rattle.rules.specs.Linked.{IsLinked};
ghost use Rattle.rules.specs.World.{World, height_of};
ghost use Rattle.known_blocks.specs.declared.known.Known.{Known};
ghost use Rattle.known_blocks.specs.Known.{IsLinkedInPlace, IsSaid};

/// Proved (the function does nothing at run time): a block is linked in the place of its number exactly if it is linked
/// to the ledger of that height, whatever has been submitted to that ledger since.
pub fn linked_in_place_is_linked_before()
    ensures was { (channel : Configuration) (before after : World) (submissions : List Submission) (answers : List (Result Accepted Refused)) (b : Block)
        → Chain channel before submissions answers after → b.header.number ≡ height_of before → IsLinkedInPlace after b → IsLinked before b }
    ensures stays { (channel : Configuration) (before after : World) (submissions : List Submission) (answers : List (Result Accepted Refused)) (b : Block)
        → Chain channel before submissions answers after → IsLinked before b → IsLinkedInPlace after b }
{}

/// Proved (the function does nothing at run time): one thing is said of a block, and no other.
pub fn one_relation()
    ensures { (w : World) (b : Block) (x y : Option Known) → IsSaid w b x → IsSaid w b y → x ≡ y }
{}
