//! The words of `draft`.
ghost use Rattle.std.specs.Prelude.{◌≡◌, codes};
ghost use Rattle.cli_words.specs.Rules.{shape_for};
ghost use Rattle.cli_words.specs.Program.{draft_rules, named};

use crate::arguments::{Argument, Form, number_of};
use crate::paths::{CHANNEL, ConfigurationPaths, KEYS};
use crate::subcommand::Subcommand;
use clap::ArgMatches;
use transaction::BlockVersion;

static DRAFT: Subcommand = Subcommand {
    name: "draft",
    about: "Make a block from a script, with ids, signatures and hashes",
    example: "\
Example:
  fabcommit draft --channel channel.txt --keys keys.txt \\
    --after block0.blk script.txt block1.blk

  with these lines in script.txt, a transaction that writes one key and is
  endorsed by one peer:
    tx Org1:client:c0 nonce1 cc
    ns cc
    write car1 red
    endorse Org1:peer:p0

  With --format 2 a script may also update the policy of a chaincode, in a block
  of its own:
    update Org1:admin:a0 nonce2 cc OR('Org1.peer','Org2.peer')
    endorse Org1:admin:a0

  Behind a block of version 2 none of version 1 is accepted.

  Prints nothing. Where the script has a fault, OUT stays as it was.",
    arguments: &[CHANNEL, KEYS, AFTER, FORMAT, SCRIPT, OUT],
};

/// The subcommand. A function, so that its texts are read by no other proof.
pub(crate) fn subcommand() -> &'static Subcommand
    ensures { shape_for result.now ≡ named (codes "draft") draft_rules }
{
    &DRAFT
}

const AFTER: Argument = Argument {
    name: "after",
    value_name: "FILE",
    help: "The block before it; without one block 0 is made",
    form: Form::Optional,
};

const FORMAT: Argument = Argument {
    name: "format",
    value_name: "N",
    help: "The block's version: 1, or 2 for updates",
    form: Form::Count {
        default: "1",
        least: 1,
        most: 2,
    },
};

const SCRIPT: Argument = Argument {
    name: "script",
    value_name: "SCRIPT",
    help: "What the transactions and updates are to say, line by line",
    form: Form::Positional,
};

const OUT: Argument = Argument {
    name: "out",
    value_name: "OUT",
    help: "The block's file, which is written anew",
    form: Form::Positional,
};

/// A script in, and a block out.
#[derive(Clone, Copy)]
pub struct Draft<'a> {
    pub configuration: ConfigurationPaths<'a>,
    pub after: Option<&'a str>,
    pub version: BlockVersion,
    pub script: &'a str,
    pub out: &'a str,
}

// Clap has looked at the bounds already.
fn version_of(matches: &ArgMatches<'_>) -> Option<BlockVersion> {
    match number_of(matches, "format")? {
        1 => Some(BlockVersion::V1),
        2 => Some(BlockVersion::V2),
        _ => None,
    }
}

impl<'a> Draft<'a> {
    pub(crate) fn from_matches(matches: &ArgMatches<'a>) -> Option<Draft<'a>> {
        Some(Draft {
            configuration: ConfigurationPaths::from_matches(matches)?,
            after: matches.get_str("after"),
            version: version_of(matches)?,
            script: matches.get_str("script")?,
            out: matches.get_str("out")?,
        })
    }
}
