//! The words of `session`.
ghost use Rattle.std.specs.Prelude.{◌≡◌, codes};
ghost use Rattle.cli_words.specs.Rules.{shape_for};
ghost use Rattle.cli_words.specs.Program.{session_rules, named};

use crate::parallelism::{Parallelism, WORKERS};
use crate::paths::{ANY_BLOCKS, CHANNEL, JSON, KEYS, LedgerPaths, QUIET};
use crate::subcommand::Subcommand;
use clap::ArgMatches;
use std::alloc::{AllocError, Global};

static SESSION: Subcommand = Subcommand {
    name: "session",
    about: "Commit blocks, then answer each line of standard input",
    example: "\
Example:
  echo 'get --ns cc --key car1' | fabcommit session --channel channel.txt \\
    --keys keys.txt block0.blk block1.blk

Each line is a call without the program's name, channel and keys:

  run [--hashes] BLOCK ..
                         commits these blocks too
  get --ns NAME --key WORD
  scan --ns NAME [--start WORD] [--end WORD] [--limit N]
  history --ns NAME --key WORD
  definition --ns NAME
  explain [--tx N | --id ID] [--ids | --dot [--all]] BLOCK
                         the next block, which isn't committed
  conflicts [--top N] [--from N]
                         in all blocks so far
  height                 how many blocks were accepted
  help [COMMAND]
  quit                   as the end of the input does

BLOCK is a word: %20 is a space in its path, %25 a per cent sign. An empty line
says nothing, nor does one that begins with #.

An answer is what the call would print of all blocks so far, and then

  end STATUS             what its process would end with

A fault is an answer too:

  fault TEXT
  end STATUS

The first answer is that to the blocks of the command line. --json is for all
answers.",
    arguments: &[CHANNEL, KEYS, WORKERS, QUIET, JSON, ANY_BLOCKS],
};

/// The subcommand. A function, so that its texts are read by no other proof.
pub(crate) fn subcommand() -> &'static Subcommand
    ensures { shape_for result.now ≡ named (codes "session") session_rules }
{
    &SESSION
}

/// Blocks in, and then answers to lines out.
#[derive(Drop)]
pub struct Session<'a> {
    pub paths: LedgerPaths<'a>,
    /// Without readers.
    pub parallelism: Parallelism,
}

impl<'a> Session<'a> {
    pub(crate) fn from_matches(
        alloc: Global,
        matches: &ArgMatches<'a>,
    ) -> Result<Option<Session<'a>>, AllocError> {
        let Some(parallelism) = Parallelism::of_workers(matches) else {
            return Ok(None);
        };
        let paths = LedgerPaths::from_matches(alloc, matches)?;
        Ok(paths.map(|paths| Session { paths, parallelism }))
    }
}
