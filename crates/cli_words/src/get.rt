//! The words of `get`, which are those of a `KeyedQuery`.
ghost use Rattle.std.specs.Prelude.{◌≡◌, codes};
ghost use Rattle.cli_words.specs.Rules.{shape_for};
ghost use Rattle.cli_words.specs.Program.{keyed_rules, named};

use crate::arguments::{KEY, NAMESPACE};
use crate::paths::{ANY_BLOCKS, CHANNEL, JSON, KEYS, QUIET};
use crate::subcommand::Subcommand;

static GET: Subcommand = Subcommand {
    name: "get",
    about: "Look up what a key holds",
    example: "\
Example:
  fabcommit get --channel channel.txt --keys keys.txt --ns cc --key car1 \\
    block0.blk block1.blk

  height H               how many blocks were accepted
  row KEY BLOCK TX VALUE POLICY
                         the block and transaction that wrote it last; - is no
                         own policy
  absent                 in the row's place, where there is none

With --json each line is an object, in which bytes are strings where they are
UTF-8, else {\"hex\":\"DIGITS\"}:
  fabcommit get --channel channel.txt --keys keys.txt --ns cc --key car1 \\
    --json block0.blk block1.blk | jq -r '.value // empty'",
    arguments: &[CHANNEL, KEYS, NAMESPACE, KEY, QUIET, JSON, ANY_BLOCKS],
};

/// The subcommand. A function, so that its texts are read by no other proof.
pub(crate) fn subcommand() -> &'static Subcommand
    ensures { shape_for result.now ≡ named (codes "get") keyed_rules }
{
    &GET
}
