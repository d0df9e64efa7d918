//! The words of `run`.
ghost use Rattle.std.specs.Prelude.{◌≡◌, codes};
ghost use Rattle.cli_words.specs.Rules.{shape_for};
ghost use Rattle.cli_words.specs.Program.{run_rules, named};

use crate::arguments::{Argument, Form};
use crate::parallelism::{Parallelism, READERS, WORKERS};
use crate::paths::{CHANNEL, JSON, KEYS, LedgerPaths, QUIET, SOME_BLOCKS};
use crate::subcommand::Subcommand;
use clap::ArgMatches;
use std::alloc::{AllocError, Global};

pub(crate) const HASHES: Argument = Argument {
    name: "hashes",
    value_name: "",
    help: "Prints the commit hash of each accepted block",
    form: Form::Flag,
};

static RUN: Subcommand = Subcommand {
    name: "run",
    about: "Commit blocks, and see the flag of each transaction",
    example: "\
Example, with a worker for each of four processors and two readers:
  fabcommit run --channel channel.txt --keys keys.txt --workers 4 --readers 2 \\
    block0.blk block1.blk

  accepted NUMBER HASH FLAG ..
                         the header's hash, and a flag for each transaction:
                         0 is valid
  commit NUMBER HASH     with --hashes, behind it: a hash of its flags and
                         changes and of the commit hash before it, by which
                         peers compare their rows, and not their histories
  refused PLACE FAULT    the file's place among the blocks, from 1; the next one
                         is still tried
  reader J height H      behind all blocks, what reader J then finds: the number
                         of accepted ones

  Workers share the transactions of a block among them: they check signatures,
  policies and reads side by side, and take in the block behind it while it is
  committed. With as many workers as there are processors blocks of many
  transactions are done soonest; for blocks of few one worker is enough. What is
  printed of the blocks is the same for any number. A block's line comes when it
  is done.

  Readers stand for the clients who query a peer while it commits. Each asks for
  the height, 1,000 times, while the blocks are handed in, and waits for nobody.",
    arguments: &[
        CHANNEL,
        KEYS,
        WORKERS,
        READERS,
        HASHES,
        QUIET,
        JSON,
        SOME_BLOCKS,
    ],
};

/// The subcommand. A function, so that its texts are read by no other proof.
pub(crate) fn subcommand() -> &'static Subcommand
    ensures { shape_for result.now ≡ named (codes "run") run_rules }
{
    &RUN
}

/// Blocks in, and a line for each out.
#[derive(Drop)]
pub struct Run<'a> {
    pub paths: LedgerPaths<'a>,
    pub parallelism: Parallelism,
    /// Whether commit hashes are printed.
    pub hashes: bool,
}

impl<'a> Run<'a> {
    pub(crate) fn from_matches(
        alloc: Global,
        matches: &ArgMatches<'a>,
    ) -> Result<Option<Run<'a>>, AllocError> {
        let Some(parallelism) = Parallelism::from_matches(matches) else {
            return Ok(None);
        };
        let hashes = matches.get_flag("hashes");
        let paths = LedgerPaths::from_matches(alloc, matches)?;
        Ok(paths.map(|paths| Run {
            paths,
            parallelism,
            hashes,
        }))
    }
}
