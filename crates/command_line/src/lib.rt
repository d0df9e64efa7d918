//! The program `fabcommit`: drafts blocks of a Fabric channel and shows them as scripts, takes blocks and says of each
//! what a committing peer makes of it, and why, and answers what the ledger behind them holds.
#![tactic(auto)]

mod answer_ends;
mod answering;
mod committing;
mod entry;
mod line_reading;
mod lines;
mod performing;
mod readers;
mod reading;
mod run;
mod session;
mod word_files;

pub use cli_lines::LineFault;
pub use cli_values::{Format, printed_values_are_read_back};
pub use cli_words::Asked;
pub use command_files::{DiskFiles, Fault, FileFault, Files};
pub use entry::{program, run_subcommand, without_words};
pub use ledger_commands::{Progress, ProgressLine, Silent};
pub use lines::{Style, write_answer};
