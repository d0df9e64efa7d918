//! The subcommands that one thread does: they draft a block, show blocks as scripts, count what made transactions
//! invalid, or ask the ledger behind some blocks. And what a person is told who waits.
#![tactic(auto)]

mod buffered;
mod conflict_counts;
mod definition;
mod draft;
mod explain;
mod get;
mod history;
mod kept_lines;
mod known;
mod progress;
mod querying;
mod question;
mod scan;
mod show;
mod standing;

pub use buffered::finish;
pub use conflict_counts::print_conflicts;
pub use definition::print_definition;
pub use draft::draft_block;
pub use explain::print_reasons;
pub use get::print_row;
pub use history::print_history;
pub use progress::{Progress, ProgressLine, Silent};
pub use querying::add_answer;
pub use scan::print_rows;
pub use show::print_scripts;
pub use standing::Standing;
