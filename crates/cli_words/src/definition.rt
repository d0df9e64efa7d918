//! The words of `definition`.
ghost use Rattle.std.specs.Prelude.{◌≡◌, List, codes, false, Err, IfOk, IfSome};
ghost use Rattle.clap.specs.Words.{found_of, rows_of};
ghost use Rattle.cli_values.specs.declared.word_fault.WordFault.TheVariants.{NotAWord};
ghost use Rattle.cli_words.specs.Items.{Item};
ghost use Rattle.cli_words.specs.Matched.{HoldNamespace};
ghost use Rattle.cli_words.specs.Words.{IsOfNamespace};
ghost use Rattle.cli_words.specs.Rules.{shape_for};
ghost use Rattle.cli_words.specs.Program.{definition_rules, named};
ghost use Rattle.values.specs.Name.{is_name};

use crate::arguments::{NAMESPACE, value_of};
use crate::paths::{ANY_BLOCKS, CHANNEL, JSON, KEYS, LedgerPaths, QUIET};
use crate::subcommand::Subcommand;
use clap::ArgMatches;
use cli_values::{WordFault, name_of};
use std::alloc::{AllocError, Global};
use values::Name;

static DEFINITION: Subcommand = Subcommand {
    name: "definition",
    about: "See the endorsement policy of a chaincode",
    example: "\
Example:
  fabcommit definition --channel channel.txt --keys keys.txt --ns cc block0.blk

  height H               how many blocks were accepted
  definition TEXT        whose endorsement the chaincode's transactions need; no
                         spaces, single quotes
  absent                 the channel has no such chaincode",
    arguments: &[CHANNEL, KEYS, NAMESPACE, QUIET, JSON, ANY_BLOCKS],
};

/// The subcommand. A function, so that its texts are read by no other proof.
pub(crate) fn subcommand() -> &'static Subcommand
    ensures { shape_for result.now ≡ named (codes "definition") definition_rules }
{
    &DEFINITION
}

/// Blocks in, and the policy of a chaincode out.
#[derive(Drop)]
pub struct DefinitionQuery<'a> {
    pub paths: LedgerPaths<'a>,
    pub namespace: &'a str,
}

impl<'a> DefinitionQuery<'a> {
    pub(crate) fn from_matches(
        alloc: Global,
        matches: &ArgMatches<'a>,
    ) -> Result<Option<DefinitionQuery<'a>>, AllocError>
        ensures { (items : List Item) → HoldNamespace items (rows_of (found_of matches.now))
            → IfOk result (λ o. IfSome o (IsOfNamespace items)) }
    {
        let Some(namespace) = value_of(matches, "ns") else {
            return Ok(None);
        };
        let Some(paths) = LedgerPaths::from_matches(alloc, matches)? else {
            return Ok(None);
        };
        Ok(Some(DefinitionQuery { paths, namespace }))
    }

    /// The chaincode that the words name. An `Err` is a bad name, or want of memory. Linear in the name.
    pub fn chaincode(&self, alloc: Global) -> Result<Name, WordFault>
        ensures ok { IfOk result (λ name. name ≡ self.now.namespace.now) }
        ensures err { result ≡ Err NotAWord → is_name self.now.namespace.now ≡ false }
    {
        name_of(alloc, self.namespace)
    }
}
