//! The words of `show`.
ghost use Rattle.std.specs.Prelude.{◌≡◌, codes};
ghost use Rattle.cli_words.specs.Rules.{shape_for};
ghost use Rattle.cli_words.specs.Program.{show_rules, named};

use crate::arguments::{Argument, Form};
use crate::paths::{ConfigurationPaths, QUIET, SOME_BLOCKS, blocks_of};
use crate::subcommand::Subcommand;
use clap::ArgMatches;
use std::alloc::{AllocError, Global};

static SHOW: Subcommand = Subcommand {
    name: "show",
    about: "See what blocks have, as scripts that draft them again",
    example: "\
Example, to change a block:
  fabcommit show --channel channel.txt --keys keys.txt block1.blk > script.txt
  fabcommit draft --channel channel.txt --keys keys.txt --after block0.blk \\
    script.txt block1.blk

  # block NUMBER of version V, transactions: COUNT
  # header hash HASH
  # previous hash HASH ..
                         whether it is that of the block before, where that one
                         is shown too
  # data hash HASH ..    whether it is that of the transactions

  # PLACE transaction, id ID
  tx IDENTITY NONCE NAME
  ..                     the lines that draft it: fabcommit help draft

  # PLACE no transaction
  raw HEX                bytes that no line but this one says

  # PLACE transaction, id ID
  #   tx IDENTITY NONCE NAME
  # raw, for ..          what keeps these lines from saying it
  raw HEX

  # refused PLACE FAULT at byte N
                         the file's place, from 1; it has no block, and N is the
                         first byte, from 0, of what can't be read

  Without --channel and --keys all is raw, since nothing can be signed. A block
  of version 2 is drafted again with --format 2.",
    arguments: &[CHANNEL, KEYS, QUIET, SOME_BLOCKS],
};

/// The subcommand. A function, so that its texts are read by no other proof.
pub(crate) fn subcommand() -> &'static Subcommand
    ensures { shape_for result.now ≡ named (codes "show") show_rules }
{
    &SHOW
}

const CHANNEL: Argument = Argument {
    name: "channel",
    value_name: "FILE",
    help: "The channel's name, and the policies of its chaincodes",
    form: Form::Optional,
};

const KEYS: Argument = Argument {
    name: "keys",
    value_name: "FILE",
    help: "The keys that signatures are made with",
    form: Form::Optional,
};

/// Blocks in, and their scripts out.
#[derive(Drop)]
pub struct Show<'a> {
    /// None where a file isn't named.
    pub configuration: Option<ConfigurationPaths<'a>>,
    pub blocks: Vec<&'a str>,
    /// Whether they are shown in silence.
    pub quiet: bool,
}

impl<'a> Show<'a> {
    pub(crate) fn from_matches(
        alloc: Global,
        matches: &ArgMatches<'a>,
    ) -> Result<Show<'a>, AllocError> {
        Ok(Show {
            configuration: ConfigurationPaths::from_matches(matches),
            blocks: blocks_of(alloc, matches)?,
            quiet: matches.get_flag("quiet"),
        })
    }
}
