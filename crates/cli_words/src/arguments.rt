//! What subcommands take: options and positionals, and the numbers that options give.
ghost use Rattle.std.specs.Prelude.{◌≡◌, ◌∷◌, [], ℕ, List, Option, None, Some, false, pos, nat_lt};
ghost use Rattle.std.specs.Prelude.{if◌then◌else◌, option_map};
ghost use Rattle.clap.specs.Words.{first_of, found_of, one_of, rows_of, rule_of};
ghost use Rattle.cli_words.specs.Matched.{IsSet};
ghost use Rattle.clap.specs.Lexer.{usize_max};
ghost use Rattle.clap.specs.declared.builder.action.ArgAction.TheVariants.{Append};
ghost use Rattle.clap.specs.declared.builder.value_parser.ValueParser.TheVariants as parser;
ghost use Rattle.cli_words.specs.Program.{flag_rule, option_rule, positional_rule};
ghost use Rattle.cli_words.specs.Rules.{rule_for};

use clap::{Arg, ArgAction, ArgMatches, value_parser};
use std::alloc::Global;

/// How an argument is given.
#[derive(Clone, Copy)]
pub(crate) enum Form {
    /// `--NAME VALUE`.
    Required,
    /// `--NAME VALUE`, or not at all.
    Optional,
    /// `--NAME VALUE`, which has this value where it isn't given.
    Default(&'static str),
    /// `--NAME N`, a number in these bounds, which is the default where it isn't given.
    Count {
        default: &'static str,
        least: u16,
        most: u16,
    },
    /// `--NAME N`, a number in these bounds, or not at all.
    OptionalCount {
        least: u16,
        most: u16,
    },
    /// `--NAME N`, a number of up to 64 bits, which has this value where it isn't given.
    LongNumber(&'static str),
    /// `--NAME`, or not.
    Flag,
    /// One positional.
    Positional,
    /// The positionals that are left, so many at least.
    Positionals {
        least: usize,
    },
}

/// An argument, as help shows it.
#[derive(Clone, Copy)]
pub(crate) struct Argument {
    pub(crate) name: &'static str,
    pub(crate) value_name: &'static str,
    pub(crate) help: &'static str,
    pub(crate) form: Form,
}

/// The option that names a namespace.
pub(crate) const NAMESPACE: Argument = Argument {
    name: "ns",
    value_name: "NAME",
    help: "The namespace: a chaincode's name",
    form: Form::Required,
};

/// The option that names a key.
pub(crate) const KEY: Argument = Argument {
    name: "key",
    value_name: "WORD",
    help: "The key, as a word: %20 is a space, %25 a per cent sign",
    form: Form::Required,
};

fn option<'a>(alloc: Global, argument: &Argument) -> Arg<'a>
    ensures rule { rule_of result ≡ option_rule argument.now.name.now }
    ensures local { result.global ≡ false }
{
    positional(alloc, argument)
        .long(argument.name)
        .action(ArgAction::Set)
}

fn positional<'a>(alloc: Global, argument: &Argument) -> Arg<'a>
    ensures rule { rule_of result ≡ positional_rule argument.now.name.now }
    ensures local { result.global ≡ false }
{
    Arg::new(alloc, argument.name)
        .value_name(argument.value_name)
        .help(argument.help)
}

fn flag<'a>(alloc: Global, argument: &Argument) -> Arg<'a>
    ensures rule { rule_of result ≡ flag_rule argument.now.name.now }
    ensures local { result.global ≡ false }
{
    Arg::new(alloc, argument.name)
        .long(argument.name)
        .help(argument.help)
        .action(ArgAction::SetTrue)
}

// A number in bounds; that it has digits alone is looked at by `number_of`.
fn count<'a>(alloc: Global, argument: &Argument, least: u16, most: u16) -> Arg<'a>
    ensures rule { rule_of result ≡ record (option_rule argument.now.name.now) {
      parser = Some (parser.Signed (pos least) (pos most));
    } }
    ensures local { result.global ≡ false }
{
    option(alloc, argument).value_parser(value_parser!(u16).range(
        i64::from(least)..=i64::from(most),
    ))
}

fn positionals<'a>(alloc: Global, argument: &Argument, least: usize) -> Arg<'a>
    ensures rule { rule_of result ≡ record (positional_rule argument.now.name.now) {
      required = nat_lt 0 least;
      range = Some (record { start_inclusive = least; end_inclusive = usize_max });
      action = Some Append;
    } }
    ensures local { result.global ≡ false }
{
    positional(alloc, argument)
        .required(least > 0)
        .num_args(least..)
        .action(ArgAction::Append)
}

impl Argument {
    /// The argument as clap has it.
    pub(crate) fn arg<'a>(&self, alloc: Global) -> Arg<'a>
        ensures rule { rule_of result ≡ rule_for self.now }
        ensures local { result.global ≡ false }
    {
        match self.form {
            Form::Required => option(alloc, self).required(true),
            Form::Optional => option(alloc, self),
            Form::Default(value) => option(alloc, self).default_value(value),
            Form::Count {
                default,
                least,
                most,
            } => count(alloc, self, least, most).default_value(default),
            Form::OptionalCount { least, most } => count(alloc, self, least, most),
            Form::LongNumber(value) => option(alloc, self)
                .value_parser(value_parser!(u64))
                .default_value(value),
            Form::Flag => flag(alloc, self),
            Form::Positional => positional(alloc, self).required(true),
            Form::Positionals { least } => positionals(alloc, self, least),
        }
    }
}

/// The first value of an option.
pub(crate) fn value_of<'a>(matches: &ArgMatches<'a>, name: &str) -> Option<&'a str>
    ensures { option_map (λ s. s.now) result ≡ first_of name.now (rows_of (found_of matches.now)) }
{
    matches.get_str(name)
}

/// Whether an option without a value is given.
pub(crate) fn is_given(matches: &ArgMatches<'_>, name: &str) -> bool
    ensures { (uses : List (Option (List ℕ))) → IsSet uses (one_of name.now (rows_of (found_of matches.now)))
        → uses ≡ (if result then None ∷ [] else []) }
{
    matches.get_flag(name)
}

// The value of an option, where it has digits alone.
fn digits_of<'a>(matches: &ArgMatches<'a>, name: &str) -> Option<&'a str> {
    let text = matches.get_str(name)?;
    if text.as_bytes().iter().all(u8::is_ascii_digit) {
        Some(text)
    } else {
        None
    }
}

/// The number of an option, of which clap has looked at all but its form: it has digits alone.
pub(crate) fn number_of(matches: &ArgMatches<'_>, name: &str) -> Option<u16> {
    digits_of(matches, name)?.parse().ok()
}

/// The number of an option, of up to 64 bits, of which clap has looked at all but its form: it has digits alone.
pub(crate) fn long_number_of(matches: &ArgMatches<'_>, name: &str) -> Option<u64> {
    digits_of(matches, name)?.parse().ok()
}
