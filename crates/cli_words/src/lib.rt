//! The words of the program `fabcommit`: its subcommands with their options and help, and what words ask for, those of
//! a call or of a session's line. What is then done stands in `ledger_commands`, and of `run` and `session` in
//! `command_line`.
#![tactic(auto)]

mod arguments;
mod command;
mod conflict_counts;
mod definition;
mod draft;
mod explain;
mod get;
mod history;
mod keyed;
mod line;
mod line_commands;
mod parallelism;
mod paths;
mod run;
mod scan;
mod session;
mod show;
mod subcommand;

pub use command::{Asked, not_text};
pub use conflict_counts::ConflictCounts;
pub use definition::DefinitionQuery;
pub use draft::Draft;
pub use explain::{Explain, Explained, Told};
pub use keyed::{KeyWords, KeyedQuery, NamespacedKey};
pub use line::{CountWords, ExplainWords, Line, Query, RunWords};
pub use parallelism::Parallelism;
pub use paths::{ConfigurationPaths, LedgerPaths};
pub use run::Run;
pub use scan::{RangeWords, Scan};
pub use session::Session;
pub use show::Show;
