//! The words of `conflicts`.
ghost use Rattle.std.specs.Prelude.{◌≡◌, codes};
ghost use Rattle.cli_words.specs.Rules.{shape_for};
ghost use Rattle.cli_words.specs.Program.{conflicts_rules, named};

use crate::arguments::{Argument, Form, long_number_of, number_of};
use crate::paths::{CHANNEL, JSON, KEYS, LedgerPaths, QUIET, SOME_BLOCKS};
use crate::subcommand::Subcommand;
use clap::ArgMatches;
use std::alloc::{AllocError, Global};

static CONFLICTS: Subcommand = Subcommand {
    name: "conflicts",
    about: "Count what made transactions invalid: flags, keys, chaincodes",
    example: "\
Example, of the blocks from number 1 on:
  fabcommit conflicts --channel channel.txt --keys keys.txt --from 1 \\
    block0.blk block1.blk

  flag FLAG NAME N       so many transactions have this flag
  key NAMESPACE KEY N stale N phantom N policy N touched N in-block N
                         so many transactions the key made invalid, worst key
                         first; of them by a stale read, a phantom, its own
                         policy, or its policy being touched; and how many of
                         all these by a transaction of the same block
  chaincode NAME N missing ORG.ROLE N
                         in so many transactions the signers didn't satisfy the
                         chaincode's policy; the principal that was missing in
                         most of them, and in how many

Where most of a key's N are in-block, smaller blocks help, or other keys.",
    arguments: &[CHANNEL, KEYS, TOP, FROM, QUIET, JSON, SOME_BLOCKS],
};

/// The subcommand. A function, so that its texts are read by no other proof.
pub(crate) fn subcommand() -> &'static Subcommand
    ensures { shape_for result.now ≡ named (codes "conflicts") conflicts_rules }
{
    &CONFLICTS
}

pub(crate) const TOP: Argument = Argument {
    name: "top",
    value_name: "N",
    help: "The most keys, from 0 to 65535",
    form: Form::Count {
        default: "20",
        least: 0,
        most: u16::MAX,
    },
};

pub(crate) const FROM: Argument = Argument {
    name: "from",
    value_name: "N",
    help: "The number of the first block to count",
    form: Form::LongNumber("0"),
};

/// Blocks in, and what made their transactions invalid out.
#[derive(Drop)]
pub struct ConflictCounts<'a> {
    pub paths: LedgerPaths<'a>,
    /// The most keys to print.
    pub top: u16,
    /// The number of the first block that is counted.
    pub from: u64,
}

impl<'a> ConflictCounts<'a> {
    pub(crate) fn from_matches(
        alloc: Global,
        matches: &ArgMatches<'a>,
    ) -> Result<Option<ConflictCounts<'a>>, AllocError> {
        let (Some(top), Some(from)) = (number_of(matches, "top"), long_number_of(matches, "from"))
        else {
            return Ok(None);
        };
        Ok(LedgerPaths::from_matches(alloc, matches)?.map(|paths| ConflictCounts {
            paths,
            top,
            from,
        }))
    }
}
