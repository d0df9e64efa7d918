//! The words of `scan`.
ghost use Rattle.std.specs.Prelude.{◌≡◌, codes};
ghost use Rattle.cli_words.specs.Rules.{shape_for};
ghost use Rattle.cli_words.specs.Program.{scan_rules, named};

use crate::arguments::{Argument, Form, NAMESPACE, number_of, value_of};
use crate::paths::{ANY_BLOCKS, CHANNEL, JSON, KEYS, LedgerPaths, QUIET};
use crate::subcommand::Subcommand;
use clap::ArgMatches;
use std::alloc::{AllocError, Global};

static SCAN: Subcommand = Subcommand {
    name: "scan",
    about: "List the keys of a namespace, in their order, and what they hold",
    example: "\
Example:
  fabcommit scan --channel channel.txt --keys keys.txt --ns cc --start car \\
    --limit 10 block0.blk

  height H               how many blocks were accepted
  row KEY BLOCK TX VALUE POLICY
                         the block and transaction that wrote it last; - is no
                         own policy
  more                   behind the rows, where the limit cut them: go on with
                         --start KEY%00, KEY being that of the last row",
    arguments: &[
        CHANNEL, KEYS, NAMESPACE, START, END, LIMIT, QUIET, JSON, ANY_BLOCKS,
    ],
};

/// The subcommand. A function, so that its texts are read by no other proof.
pub(crate) fn subcommand() -> &'static Subcommand
    ensures { shape_for result.now ≡ named (codes "scan") scan_rules }
{
    &SCAN
}

pub(crate) const START: Argument = Argument {
    name: "start",
    value_name: "WORD",
    help: "The word to begin at; % is before all",
    form: Form::Default("%"),
};

pub(crate) const END: Argument = Argument {
    name: "end",
    value_name: "WORD",
    help: "The word that all are below; % is no end",
    form: Form::Default("%"),
};

pub(crate) const LIMIT: Argument = Argument {
    name: "limit",
    value_name: "N",
    help: "The most rows, from 1 to 65535",
    form: Form::Count {
        default: "100",
        least: 1,
        most: u16::MAX,
    },
};

/// Blocks in, and the rows of a namespace out.
#[derive(Drop)]
pub struct Scan<'a> {
    pub paths: LedgerPaths<'a>,
    pub namespace: &'a str,
    pub start: &'a str,
    pub end: &'a str,
    pub limit: u16,
}

impl<'a> Scan<'a> {
    pub(crate) fn from_matches(
        alloc: Global,
        matches: &ArgMatches<'a>,
    ) -> Result<Option<Scan<'a>>, AllocError> {
        let (Some(namespace), Some(start), Some(end), Some(limit)) = (
            matches.get_str("ns"),
            matches.get_str("start"),
            matches.get_str("end"),
            number_of(matches, "limit"),
        ) else {
            return Ok(None);
        };
        Ok(LedgerPaths::from_matches(alloc, matches)?.map(|paths| Scan {
            paths,
            namespace,
            start,
            end,
            limit,
        }))
    }
}

/// The words for a range of a namespace.
#[derive(Clone, Copy)]
pub struct RangeWords<'a> {
    pub namespace: &'a str,
    pub start: &'a str,
    pub end: &'a str,
    pub limit: u16,
}

impl<'a> RangeWords<'a> {
    pub(crate) fn from_matches(matches: &ArgMatches<'a>) -> Option<RangeWords<'a>> {
        Some(RangeWords {
            namespace: value_of(matches, "ns")?,
            start: value_of(matches, "start")?,
            end: value_of(matches, "end")?,
            limit: number_of(matches, "limit")?,
        })
    }
}
