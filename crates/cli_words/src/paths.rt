//! The files that words name.
ghost use Rattle.std.specs.Prelude.{◌≡◌, [], None, List, ◌∷◌, IfOk, IfSome};
ghost use Rattle.std.specs.Prelude.{codes, if◌then◌else◌, map, unwrap_or};
ghost use Rattle.clap.specs.Words.{all_of, found_of, one_of, rows_of};
ghost use Rattle.cli_words.specs.Items.{Item, IsFlag, given};
ghost use Rattle.cli_words.specs.Matched.{HoldConfiguration, HoldLedger, IsSet};
ghost use Rattle.cli_words.specs.Words.{IsConfiguration, IsLedger, is_json};

use crate::arguments::{Argument, Form, is_given, value_of};
use clap::ArgMatches;
use cli_values::Format;
use std::alloc::{AllocError, Global};

/// The paths of what each subcommand begins with.
#[derive(Clone, Copy)]
pub struct ConfigurationPaths<'a> {
    pub channel: &'a str,
    pub keys: &'a str,
}

/// The paths of what a ledger is made of, the blocks' in their order; whether it is made in silence, and how lines are
/// written.
#[derive(Drop)]
pub struct LedgerPaths<'a> {
    pub configuration: ConfigurationPaths<'a>,
    pub blocks: Vec<&'a str>,
    pub quiet: bool,
    pub format: Format,
}

pub(crate) const CHANNEL: Argument = Argument {
    name: "channel",
    value_name: "FILE",
    help: "The channel's name, and the policies of its chaincodes",
    form: Form::Required,
};

pub(crate) const KEYS: Argument = Argument {
    name: "keys",
    value_name: "FILE",
    help: "The keys that signatures are made and checked with",
    form: Form::Required,
};

pub(crate) const QUIET: Argument = Argument {
    name: "quiet",
    value_name: "",
    help: "Doesn't show on a terminal how many blocks are in",
    form: Form::Flag,
};

pub(crate) const JSON: Argument = Argument {
    name: "json",
    value_name: "",
    help: "Prints each line as a JSON object, for jq or a program",
    form: Form::Flag,
};

const BLOCKS: &str = "Block files, in the order in which they are handed in";

/// The blocks of a ledger, which may have none.
pub(crate) const ANY_BLOCKS: Argument = Argument {
    name: "blocks",
    value_name: "BLOCK",
    help: BLOCKS,
    form: Form::Positionals { least: 0 },
};

/// Blocks to hand in, one at least.
pub(crate) const SOME_BLOCKS: Argument = Argument {
    name: "blocks",
    value_name: "BLOCK",
    help: BLOCKS,
    form: Form::Positionals { least: 1 },
};

impl<'a> ConfigurationPaths<'a> {
    pub(crate) fn from_matches(matches: &ArgMatches<'a>) -> Option<ConfigurationPaths<'a>>
        ensures { (items : List Item) → HoldConfiguration items (rows_of (found_of matches.now))
            → IfSome result (IsConfiguration items) }
    {
        let channel = value_of(matches, "channel")?;
        let keys = value_of(matches, "keys")?;
        Some(ConfigurationPaths { channel, keys })
    }
}

fn format_of(matches: &ArgMatches<'_>) -> Format
    ensures { (items : List Item)
        → IsSet (given (codes "json") items) (one_of (codes "json") (rows_of (found_of matches.now)))
        → IsFlag items (codes "json") (is_json result) }
{
    if is_given(matches, "json") {
        Format::Json
    } else {
        Format::Plain
    }
}

/// The operands that name blocks, in their order.
pub(crate) fn blocks_of<'a>(
    alloc: Global,
    matches: &ArgMatches<'a>,
) -> Result<Vec<&'a str>, AllocError>
    ensures { IfOk result (λ v. map (λ s. s.now) v.items
        ≡ unwrap_or (all_of (codes "blocks") (rows_of (found_of matches.now))) []) }
{
    let blocks = matches.get_strs("blocks").unwrap_or(&[]);
    Vec::from_slice(alloc, blocks)
}

impl<'a> LedgerPaths<'a> {
    pub(crate) fn from_matches(
        alloc: Global,
        matches: &ArgMatches<'a>,
    ) -> Result<Option<LedgerPaths<'a>>, AllocError>
        ensures { (items : List Item) → HoldLedger items (rows_of (found_of matches.now))
            → IfOk result (λ o. IfSome o (IsLedger items)) }
    {
        let Some(configuration) = ConfigurationPaths::from_matches(matches) else {
            return Ok(None);
        };
        let blocks = blocks_of(alloc, matches)?;
        let quiet = is_given(matches, "quiet");
        let format = format_of(matches);
        Ok(Some(LedgerPaths {
            configuration,
            blocks,
            quiet,
            format,
        }))
    }
}
