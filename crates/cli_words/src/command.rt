ghost use Rattle.std.specs.Prelude.{◌≡◌, ◌∷◌, ℕ, List, IfOk, IfSome, codes, map};
ghost use Rattle.clap.specs.Words.{app_of, found_of, rows_of, subcommand_rows_of};
ghost use Rattle.cli_words.specs.Matched.{HoldKeyed, HoldNamespace, HoldWords, IsCall};
ghost use Rattle.cli_words.specs.Items.{AsItems};
ghost use Rattle.cli_words.specs.Options.{definition_options, keyed_options};
ghost use Rattle.cli_words.specs.Words.{AreTexts, Asks};
ghost use Rattle.cli_words.specs.Program.{program};

use crate::conflict_counts::{self, ConflictCounts};
use crate::definition::{self, DefinitionQuery};
use crate::draft::{self, Draft};
use crate::explain::{self, Explain, asks_both_ways, mixes_graph_and_lines};
use crate::keyed::KeyedQuery;
use crate::run::{self, Run};
use crate::scan::{self, Scan};
use crate::session::{self, Session};
use crate::show::{self, Show};
use crate::subcommand::with_subcommands;
use crate::{get, history};
use clap::error::ErrorKind;
use clap::{ArgMatches, Command, Error};
use std::alloc::{AllocError, Global};
use std::convert::AsStr;

const NAME: &str = "fabcommit";

// The program's own version, and the versions of blocks that it reads.
const VERSION: &str = "0.2.0, for blocks of versions 1 and 2";

const EXAMPLE: &str = "\
Example, from a script to what its block leaves behind:
  fabcommit draft --channel channel.txt --keys keys.txt script.txt block0.blk
  fabcommit run --channel channel.txt --keys keys.txt block0.blk
  fabcommit get --channel channel.txt --keys keys.txt --ns cc --key car1 \\
    block0.blk

The ledger lives in memory: each call hands its blocks in anew, from block 0
on; a session keeps it. `fabcommit help COMMAND` says what a command prints.

Exit status:
  0  all went well
  1  a block was refused
  2  the words are no command, one is a bad word, or the transaction to explain
     isn't there
  3  a file can't be read or written, or has a fault
  4  memory ran out";

/// What the words ask for.
#[derive(Drop)]
pub enum Asked<'a> {
    Draft(Draft<'a>),
    Run(Run<'a>),
    Get(KeyedQuery<'a>),
    Scan(Scan<'a>),
    History(KeyedQuery<'a>),
    Definition(DefinitionQuery<'a>),
    Explain(Explain<'a>),
    Conflicts(ConflictCounts<'a>),
    Show(Show<'a>),
    Session(Session<'a>),
}

fn command<'a>(alloc: Global) -> Result<Command<'a>, AllocError>
    ensures { IfOk result (λ r. app_of r ≡ program) }
{
    let command = Command::new(alloc, NAME)
        .bin_name(NAME)?
        .version(VERSION)
        .about("Commit blocks of a Hyperledger Fabric channel, and ask what they leave")
        .after_help(EXAMPLE)
        .subcommand_required(true);
    let subcommands = [
        draft::subcommand(),
        show::subcommand(),
        run::subcommand(),
        get::subcommand(),
        scan::subcommand(),
        history::subcommand(),
        definition::subcommand(),
        explain::subcommand(),
        conflict_counts::subcommand(),
        session::subcommand(),
    ];
    with_subcommands(alloc, command, &subcommands)
}

/// The mistake of words that aren't UTF-8, with the program's usage. Needs memory for its text.
pub fn not_text(alloc: Global) -> Result<Error, AllocError> {
    let text = "invalid UTF-8 was detected in one or more arguments";
    command(alloc)?.error(ErrorKind::ValueValidation, text)
}

// What is wrong with words that ask for nothing, though clap takes them.
fn fault_of(matches: &ArgMatches<'_>) -> &'static str {
    match matches.subcommand() {
        Some(("explain", matches)) if asks_both_ways(matches) => "--tx and --id don't go together",
        Some(("explain", matches)) if mixes_graph_and_lines(matches) => {
            "--dot goes with --all, and with none of --tx, --id, --ids and --json"
        }
        _ => "a number is written with digits alone",
    }
}

impl<'a> Asked<'a> {
    /// Whether nothing is to be shown while blocks are handed in.
    pub fn is_quiet(&self) -> bool {
        match self {
            Asked::Draft(_) => true,
            Asked::Show(words) => words.quiet,
            Asked::Run(words) => words.paths.quiet,
            Asked::Get(words) | Asked::History(words) => words.paths.quiet,
            Asked::Scan(words) => words.paths.quiet,
            Asked::Definition(words) => words.paths.quiet,
            Asked::Explain(words) => words.paths.quiet,
            Asked::Conflicts(words) => words.paths.quiet,
            Asked::Session(words) => words.paths.quiet,
        }
    }

    /// What the words ask for, of which the first is the program's name. An `Err` says why they are no command, holds
    /// the help that they ask for, or is want of memory. The memory is linear in the words.
    ///
    /// Of `get`, `history` and `definition` the clause says what words in UTF-8 ask for, of others nothing.
    pub fn from_words<S: AsStr>(alloc: Global, words: &'a [S]) -> Result<Asked<'a>, Error>
        ensures { AreTexts (map S.text words.entry.now) → IfOk result (Asks (map S.text words.entry.now)) }
    {
        let mut command = command(alloc)?;
        Asked::of_command(alloc, &mut command, words)
    }

    fn of_command<S: AsStr>(
        alloc: Global,
        command: &mut Command<'a>,
        words: &'a [S],
    ) -> Result<Asked<'a>, Error>
        ensures { app_of command.old ≡ program → AreTexts (map S.text words.entry.now)
            → IfOk result (Asks (map S.text words.entry.now)) }
    {
        let matches = command.try_get_matches_from_mut(words)?;
        Asked::of_matches(alloc, command, &matches)
    }

    fn of_matches(
        alloc: Global,
        command: &mut Command<'a>,
        matches: &ArgMatches<'a>,
    ) -> Result<Asked<'a>, Error>
        ensures { (words : List (List ℕ)) → IsCall words (subcommand_rows_of matches.now)
            → IfOk result (Asks words) }
    {
        match Asked::from_matches(alloc, matches)? {
            Some(asked) => Ok(asked),
            // all else is required, or looked at by clap
            None => Err(command.error(ErrorKind::ValueValidation, fault_of(matches))?),
        }
    }

    fn from_matches(
        alloc: Global,
        matches: &ArgMatches<'a>,
    ) -> Result<Option<Asked<'a>>, AllocError>
        ensures { (words : List (List ℕ)) → IsCall words (subcommand_rows_of matches.now)
            → IfOk result (λ o. IfSome o (Asks words)) }
    {
        match matches.subcommand() {
            Some((name, matches)) => Asked::of_subcommand(alloc, name, matches),
            None => Ok(None),
        }
    }

    // What the words after a subcommand's name ask for.
    fn of_subcommand(
        alloc: Global,
        name: &str,
        matches: &ArgMatches<'a>,
    ) -> Result<Option<Asked<'a>>, AllocError>
        ensures { (front : List ℕ) (words : List (List ℕ))
            → HoldWords name.now words (rows_of (found_of matches.now))
            → IfOk result (λ o. IfSome o (Asks (front ∷ name.now ∷ words))) }
    {
        if name == "get" {
            return Asked::get(alloc, matches);
        }
        if name == "history" {
            return Asked::history(alloc, matches);
        }
        if name == "definition" {
            return Asked::definition(alloc, matches);
        }
        Asked::of_other(alloc, name, matches)
    }

    fn get(alloc: Global, matches: &ArgMatches<'a>) -> Result<Option<Asked<'a>>, AllocError>
        ensures { (front : List ℕ) (words : List (List ℕ))
            → AsItems keyed_options words (λ items. HoldKeyed items (rows_of (found_of matches.now)))
            → IfOk result (λ o. IfSome o (Asks (front ∷ codes "get" ∷ words))) }
    {
        match KeyedQuery::from_matches(alloc, matches)? {
            Some(query) => Ok(Some(Asked::Get(query))),
            None => Ok(None),
        }
    }

    fn history(alloc: Global, matches: &ArgMatches<'a>) -> Result<Option<Asked<'a>>, AllocError>
        ensures { (front : List ℕ) (words : List (List ℕ))
            → AsItems keyed_options words (λ items. HoldKeyed items (rows_of (found_of matches.now)))
            → IfOk result (λ o. IfSome o (Asks (front ∷ codes "history" ∷ words))) }
    {
        match KeyedQuery::from_matches(alloc, matches)? {
            Some(query) => Ok(Some(Asked::History(query))),
            None => Ok(None),
        }
    }

    fn definition(alloc: Global, matches: &ArgMatches<'a>) -> Result<Option<Asked<'a>>, AllocError>
        ensures { (front : List ℕ) (words : List (List ℕ))
            → AsItems definition_options words (λ items. HoldNamespace items (rows_of (found_of matches.now)))
            → IfOk result (λ o. IfSome o (Asks (front ∷ codes "definition" ∷ words))) }
    {
        match DefinitionQuery::from_matches(alloc, matches)? {
            Some(query) => Ok(Some(Asked::Definition(query))),
            None => Ok(None),
        }
    }

    // Of the other subcommands nothing is stated.
    fn of_other(
        alloc: Global,
        name: &str,
        matches: &ArgMatches<'a>,
    ) -> Result<Option<Asked<'a>>, AllocError>
        ensures { (front name : List ℕ) (words : List (List ℕ))
            → IfOk result (λ o. IfSome o (Asks (front ∷ name ∷ words))) }
    {
        Ok(match name {
            "draft" => Draft::from_matches(matches).map(Asked::Draft),
            "run" => Run::from_matches(alloc, matches)?.map(Asked::Run),
            "scan" => Scan::from_matches(alloc, matches)?.map(Asked::Scan),
            "explain" => Explain::from_matches(alloc, matches)?.map(Asked::Explain),
            "conflicts" => ConflictCounts::from_matches(alloc, matches)?.map(Asked::Conflicts),
            "session" => Session::from_matches(alloc, matches)?.map(Asked::Session),
            "show" => Some(Asked::Show(Show::from_matches(alloc, matches)?)),
            _ => None,
        })
    }
}
