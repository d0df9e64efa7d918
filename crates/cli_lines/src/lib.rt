//! The lines in which the program `fabcommit` reports what a ledger holds and what happened to a block: rows, entries
//! of a history, accepted and rejected blocks, the reasons of flags, and what made transactions invalid: each in words,
//! or as an object of JSON with the same content, in which bytes that aren't UTF-8 are `{"hex":"DIGITS"}`.
#![tactic(auto)]

mod block_lines;
mod conflict_lines;
mod flag_name;
mod known_line;
mod line_fault;
mod members;
mod reason_lines;
mod refusal;
mod row_lines;
mod session_lines;
mod signers;

pub use block_lines::{write_accepted, write_block, write_commit, write_hash, write_refused};
pub use conflict_lines::write_report;
pub use flag_name::name_of;
pub use known_line::write_known;
pub use line_fault::LineFault;
pub use reason_lines::{ReasonLine, write_earlier, write_reason};
pub use refusal::Refusal;
pub use row_lines::{
    write_absent, write_definition, write_entry, write_height, write_more, write_reader, write_row,
};
pub use session_lines::{write_answer_end, write_fault, write_help};
pub use signers::write_identity;
