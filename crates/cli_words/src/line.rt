//! What a session's lines ask for: the words of calls, without the channel and the keys.
use crate::arguments::{is_given, long_number_of, number_of, value_of};
use crate::explain::{
    Explained, Told, asks_both_ways, explained_of, mixes_graph_and_lines, told_of,
};
use crate::keyed::KeyWords;
use crate::line_commands::{command_for, whole_command};
use crate::paths::blocks_of;
use crate::scan::RangeWords;
use clap::error::ErrorKind;
use clap::{ArgMatches, Error};
use cli_values::Format;
use std::alloc::{AllocError, Global};
use std::convert::AsStr;

/// Blocks to commit. Each is the word of a path.
#[derive(Drop)]
pub struct RunWords<'a> {
    pub blocks: Vec<&'a str>,
    /// Whether commit hashes are printed.
    pub hashes: bool,
}

/// The word for the path of a block, and what of it is explained.
#[derive(Clone, Copy)]
pub struct ExplainWords<'a> {
    pub block: &'a str,
    pub explained: Explained<'a>,
    pub told: Told,
}

/// What is counted.
#[derive(Clone, Copy, Debug, PartialEq, Eq)]
pub struct CountWords {
    /// The most keys to print.
    pub top: u16,
    /// The number of the first block that is counted.
    pub from: u64,
}

/// What is asked about the ledger that is there.
#[derive(Clone, Copy)]
pub enum Query<'a> {
    Height,
    Get(KeyWords<'a>),
    Scan(RangeWords<'a>),
    History(KeyWords<'a>),
    /// By the name of the chaincode.
    Definition(&'a str),
    Explain(ExplainWords<'a>),
    Conflicts(CountWords),
}

/// What a line asks for.
#[derive(Drop)]
pub enum Line<'a> {
    Run(RunWords<'a>),
    Ask(Query<'a>),
    Quit,
}

impl<'a> RunWords<'a> {
    fn from_matches(alloc: Global, matches: &ArgMatches<'a>) -> Result<RunWords<'a>, AllocError> {
        Ok(RunWords {
            blocks: blocks_of(alloc, matches)?,
            hashes: is_given(matches, "hashes"),
        })
    }
}

impl<'a> ExplainWords<'a> {
    fn from_matches(matches: &ArgMatches<'a>, format: Format) -> Option<ExplainWords<'a>> {
        let told = told_of(matches);
        if format == Format::Json && told.is_graph() {
            return None;
        }
        Some(ExplainWords {
            block: value_of(matches, "block")?,
            explained: explained_of(matches)?,
            told,
        })
    }
}

impl CountWords {
    fn from_matches(matches: &ArgMatches<'_>) -> Option<CountWords> {
        Some(CountWords {
            top: number_of(matches, "top")?,
            from: long_number_of(matches, "from")?,
        })
    }
}

impl<'a> Query<'a> {
    fn from_matches(name: &str, matches: &ArgMatches<'a>, format: Format) -> Option<Query<'a>> {
        match name {
            "height" => Some(Query::Height),
            "get" => KeyWords::from_matches(matches).map(Query::Get),
            "scan" => RangeWords::from_matches(matches).map(Query::Scan),
            "history" => KeyWords::from_matches(matches).map(Query::History),
            "definition" => value_of(matches, "ns").map(Query::Definition),
            "explain" => ExplainWords::from_matches(matches, format).map(Query::Explain),
            "conflicts" => Some(Query::Conflicts(CountWords::from_matches(matches)?)),
            _ => None,
        }
    }
}

// What is wrong with words that ask for nothing, though clap takes them.
fn fault_of(matches: &ArgMatches<'_>, format: Format) -> &'static str {
    let mixes = mixes_graph_and_lines(matches)
        || (format == Format::Json && matches.get_flag("dot"));
    if asks_both_ways(matches) {
        "--tx and --id don't go together"
    } else if mixes {
        "--dot goes with --all, and with none of --tx, --id, --ids and --json"
    } else {
        "a number is written with digits alone"
    }
}

impl<'a> Line<'a> {
    fn from_matches(
        alloc: Global,
        name: &str,
        matches: &ArgMatches<'a>,
        format: Format,
    ) -> Result<Option<Line<'a>>, AllocError> {
        Ok(match name {
            "run" => Some(Line::Run(RunWords::from_matches(alloc, matches)?)),
            "quit" => Some(Line::Quit),
            _ => Query::from_matches(name, matches, format).map(Line::Ask),
        })
    }

    /// What the words of a line ask for, if answers have this form. An `Err` says why they ask for nothing, holds the
    /// help that they ask for, or is want of memory. The memory is linear in the words.
    pub fn from_words<S: AsStr>(
        alloc: Global,
        words: &'a [S],
        format: Format,
    ) -> Result<Line<'a>, Error> {
        let name = match words.first() {
            Some(word) => word.as_str(),
            None => "",
        };
        let Some(command) = command_for(alloc, name)? else {
            // for help, or for a word that is no command
            let mut whole = whole_command(alloc)?;
            whole.try_get_matches_from_mut(words)?;
            return Err(whole.error(ErrorKind::InvalidSubcommand, "no command")?);
        };
        let mut command = command;
        let matches = command.try_get_matches_from_mut(words)?;
        match Line::from_matches(alloc, name, &matches, format)? {
            Some(line) => Ok(line),
            None => Err(command.error(ErrorKind::ValueValidation, fault_of(&matches, format))?),
        }
    }
}
