//! The words of `history`, which are those of a `KeyedQuery`.
ghost use Rattle.std.specs.Prelude.{◌≡◌, codes};
ghost use Rattle.cli_words.specs.Rules.{shape_for};
ghost use Rattle.cli_words.specs.Program.{keyed_rules, named};

use crate::arguments::{KEY, NAMESPACE};
use crate::paths::{ANY_BLOCKS, CHANNEL, JSON, KEYS, QUIET};
use crate::subcommand::Subcommand;

static HISTORY: Subcommand = Subcommand {
    name: "history",
    about: "See all that was written to a key, newest first",
    example: "\
Example:
  fabcommit history --channel channel.txt --keys keys.txt --ns cc --key car1 \\
    block0.blk block1.blk

  height H               how many blocks were accepted
  entry BLOCK TX ID VALUE
                         a value that was written, with the transaction's place
                         and id
  entry BLOCK TX ID deleted",
    arguments: &[CHANNEL, KEYS, NAMESPACE, KEY, QUIET, JSON, ANY_BLOCKS],
};

/// The subcommand. A function, so that its texts are read by no other proof.
pub(crate) fn subcommand() -> &'static Subcommand
    ensures { shape_for result.now ≡ named (codes "history") keyed_rules }
{
    &HISTORY
}
