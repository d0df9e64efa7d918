ghost use Rattle.std.specs.Prelude.{◌≡◌, IfOk, fold, false};
ghost use Rattle.clap.specs.Words.{app_of, shape_of, with_subcommand};
ghost use Rattle.clap.specs.declared.builder.command.Command.TheViews.{out-Command as fields_of};
ghost use Rattle.cli_words.specs.Rules.{added_to, added_under, shape_for};

use crate::arguments::Argument;
use clap::Command;
use std::alloc::{AllocError, Global};

/// A subcommand, as help shows it.
#[derive(Clone, Copy)]
pub(crate) struct Subcommand {
    pub(crate) name: &'static str,
    pub(crate) about: &'static str,
    pub(crate) example: &'static str,
    pub(crate) arguments: &'static [Argument],
}

fn with_argument<'a>(
    alloc: Global,
    command: Command<'a>,
    argument: &Argument,
) -> Result<Command<'a>, AllocError>
    ensures app { IfOk result (λ r. app_of r ≡ added_to (app_of command.entry) argument.now) }
    ensures local { IfOk result (λ r. (fields_of r).has_globals ≡ (fields_of command.entry).has_globals) }
{
    command.arg(argument.arg(alloc))
}

// A function of its own, so that no exit owns a command.
fn with_arguments<'a>(
    alloc: Global,
    command: Command<'a>,
    arguments: &[Argument],
) -> Result<Command<'a>, AllocError>
    ensures rules { IfOk result (λ r. app_of r ≡ fold added_to (app_of command.entry) arguments.now) }
    ensures local { IfOk result (λ r. (fields_of r).has_globals ≡ (fields_of command.entry).has_globals) }
{
    let mut command = command;
    for argument in arguments {
        command = with_argument(alloc, command, argument)?;
    }
    Ok(command)
}

impl Subcommand {
    /// The subcommand as clap has it.
    pub(crate) fn command<'a>(&self, alloc: Global) -> Result<Command<'a>, AllocError>
        ensures shape { IfOk result (λ r. shape_of r ≡ shape_for self.now) }
        ensures local { IfOk result (λ r. (fields_of r).has_globals ≡ false) }
    {
        let command = Command::new(alloc, self.name)
            .about(self.about)
            .after_help(self.example);
        with_arguments(alloc, command, self.arguments)
    }
}

fn with_subcommand<'a>(
    alloc: Global,
    command: Command<'a>,
    subcommand: &Subcommand,
) -> Result<Command<'a>, AllocError>
    ensures { IfOk result (λ r. app_of r ≡ with_subcommand (app_of command.entry) (shape_for subcommand.now)) }
{
    command.subcommand(subcommand.command(alloc)?)
}

/// A command with these subcommands. A function of its own, so that few exits own a command.
pub(crate) fn with_subcommands<'a>(
    alloc: Global,
    command: Command<'a>,
    subcommands: &[&Subcommand],
) -> Result<Command<'a>, AllocError>
    ensures { IfOk result (λ r. app_of r ≡ fold added_under (app_of command.entry) subcommands.now) }
{
    let mut command = command;
    for subcommand in subcommands {
        command = with_subcommand(alloc, command, subcommand)?;
    }
    Ok(command)
}
