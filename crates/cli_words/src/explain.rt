//! The words of `explain`.
ghost use Rattle.std.specs.Prelude.{◌≡◌, codes};
ghost use Rattle.cli_words.specs.Rules.{shape_for};
ghost use Rattle.cli_words.specs.Program.{explain_rules, named};

use crate::arguments::{Argument, Form, number_of};
use crate::paths::{CHANNEL, JSON, KEYS, LedgerPaths, QUIET, SOME_BLOCKS};
use crate::subcommand::Subcommand;
use clap::ArgMatches;
use std::alloc::{AllocError, Global};

static EXPLAIN: Subcommand = Subcommand {
    name: "explain",
    about: "Learn why each transaction of the last block has its flag",
    example: "\
Example:
  fabcommit explain --channel channel.txt --keys keys.txt block0.blk block1.blk

  block NUMBER HASH      the last block, with its header's hash
  TX FLAG NAME REASON .. a transaction, its flag and the flag's name, and the
                         words of the reason; with --ids, id ID behind them
  earlier BLOCK TX FLAG NAME
                         in place of these, where the transaction that --id
                         asks for isn't in the last block, but in this one
  refused PLACE FAULT    in place of all these, where the last block is refused

A version is BLOCK TX, or absent; keys and bounds are words, % being an empty
bound; FAULT is too-large, syntax, role, threshold or too-deep. LACK is

    POLICY SIGNER .. [refused ENDORSER ..] [missing ORG.ROLE] [order]
                         the policy and who signed; whose signature isn't
                         accepted; the first principal left without a signer;
                         order, where these signers would do if each gate
                         asked for members of any role last

The reasons:

  0 VALID, 2 BAD_PAYLOAD: no more than that
  4 BAD_CREATOR_SIGNATURE
    creator CREATOR      whose signature isn't accepted
  6 INVALID_CONFIG_TRANSACTION, of an update the first of
    not-alone            its block has more than it
    no-admin-policy      the channel has none
    undefined NAME       the chaincode whose policy it gives
    policy FAULT         the fault of its text
    admin LACK           the channel's admin policy
  8 BAD_PROPOSAL_TXID
    wanted ID            what its nonce and creator give
  9 DUPLICATE_TXID
    used BLOCK TX FLAG NAME
                         where first, and with which flag
  10 ENDORSEMENT_POLICY_FAILURE
    touched NAMESPACE KEY TX
                         by the transaction that touched the key first
    key NAMESPACE KEY LACK
                         the key's own policy
    chaincode NAMESPACE KEY LACK
                         that of its chaincode
    named NAME LACK      that of the chaincode named, where it writes no key
  11 MVCC_READ_CONFLICT
    read NAMESPACE KEY was VERSION is VERSION [by TX]
                         TX being the last writer, where it is in the block
  12 PHANTOM_READ_CONFLICT
    range NAMESPACE START END key KEY was VERSION is VERSION all|part [by TX]
                         all where the query was read to its end
  14 TARGET_CHAIN_NOT_FOUND
    channel NAME
  22 BAD_RWSET
    repeated NAMESPACE
    repeated NAMESPACE reads|writes|policies KEY
    fallen|outside NAMESPACE START END key KEY range N result N
                         a result of the range, and both places, from 0
    policy NAMESPACE KEY FAULT
  25 INVALID_CHAINCODE
    undefined NAME

With --dot, a picture of who stands in whose way:
  fabcommit explain --channel channel.txt --keys keys.txt --dot block0.blk \\
    block1.blk | dot -Tsvg > block1.svg

The nodes are the transactions that have an edge, with --all each one: place,
flag and name. An edge leads to what a reason names: who wrote the key last, or
touched it, or used the id first; of an earlier block as BLOCK TX. It is
labelled NAMESPACE KEY, or id.",
    arguments: &[
        CHANNEL,
        KEYS,
        TX,
        ID,
        IDS,
        DOT,
        ALL,
        QUIET,
        JSON,
        SOME_BLOCKS,
    ],
};

/// The subcommand. A function, so that its texts are read by no other proof.
pub(crate) fn subcommand() -> &'static Subcommand
    ensures { shape_for result.now ≡ named (codes "explain") explain_rules }
{
    &EXPLAIN
}

pub(crate) const TX: Argument = Argument {
    name: "tx",
    value_name: "N",
    help: "The one transaction to explain, by its place, from 0",
    form: Form::OptionalCount {
        least: 0,
        most: 4095,
    },
};

pub(crate) const ID: Argument = Argument {
    name: "id",
    value_name: "ID",
    help: "The transaction to explain, by its id, as a word",
    form: Form::Optional,
};

pub(crate) const IDS: Argument = Argument {
    name: "ids",
    value_name: "",
    help: "Each line ends with the transaction's id",
    form: Form::Flag,
};

pub(crate) const DOT: Argument = Argument {
    name: "dot",
    value_name: "",
    help: "Prints a graph for Graphviz in place of lines",
    form: Form::Flag,
};

pub(crate) const ALL: Argument = Argument {
    name: "all",
    value_name: "",
    help: "With --dot, shows transactions without edges too",
    form: Form::Flag,
};

/// How the reasons are told.
#[derive(Clone, Copy, Debug, PartialEq, Eq)]
pub enum Told {
    /// In lines, each of which ends with the id if it is asked for.
    Lines { ids: bool },
    /// In a graph, of all transactions or of those with edges.
    Graph { all: bool },
}

impl Told {
    /// Whether it is a graph.
    pub(crate) fn is_graph(&self) -> bool {
        matches!(self, Told::Graph { .. })
    }
}

/// Which transactions of the block are explained.
#[derive(Clone, Copy, Debug, PartialEq, Eq)]
pub enum Explained<'a> {
    All,
    /// The one at this place.
    Place(u16),
    /// Those whose id this word spells.
    Id(&'a str),
}

/// Blocks in, and the reasons of the last one out.
#[derive(Drop)]
pub struct Explain<'a> {
    pub paths: LedgerPaths<'a>,
    pub explained: Explained<'a>,
    pub told: Told,
}

/// Whether a transaction is asked for by its place and by its id.
pub(crate) fn asks_both_ways(matches: &ArgMatches<'_>) -> bool {
    matches.get_str("tx").is_some() && matches.get_str("id").is_some()
}

/// Which transactions are asked for; none where a place isn't a number, or what is asked for doesn't go together.
pub(crate) fn explained_of<'a>(matches: &ArgMatches<'a>) -> Option<Explained<'a>> {
    if mixes_graph_and_lines(matches) {
        return None;
    }
    match (matches.get_str("tx"), matches.get_str("id")) {
        (None, None) => Some(Explained::All),
        (Some(_), None) => Some(Explained::Place(number_of(matches, "tx")?)),
        (None, Some(id)) => Some(Explained::Id(id)),
        (Some(_), Some(_)) => None,
    }
}

/// How the reasons are asked for.
pub(crate) fn told_of(matches: &ArgMatches<'_>) -> Told {
    if matches.get_flag("dot") {
        Told::Graph {
            all: matches.get_flag("all"),
        }
    } else {
        Told::Lines {
            ids: matches.get_flag("ids"),
        }
    }
}

/// Whether a graph is asked for with what lines alone have, or all of its transactions without it.
pub(crate) fn mixes_graph_and_lines(matches: &ArgMatches<'_>) -> bool {
    if matches.get_flag("dot") {
        matches.get_flag("ids")
            || matches.get_flag("json")
            || matches.get_str("tx").is_some()
            || matches.get_str("id").is_some()
    } else {
        matches.get_flag("all")
    }
}

impl<'a> Explain<'a> {
    pub(crate) fn from_matches(
        alloc: Global,
        matches: &ArgMatches<'a>,
    ) -> Result<Option<Explain<'a>>, AllocError> {
        let Some(explained) = explained_of(matches) else {
            return Ok(None);
        };
        let told = told_of(matches);
        Ok(LedgerPaths::from_matches(alloc, matches)?.map(|paths| Explain {
            paths,
            explained,
            told,
        }))
    }
}
