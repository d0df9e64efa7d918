//! The files that a command names: how they are read and written, what is read of all of them before a ledger is
//! opened, what can be wrong with them, and what the process then ends with.
#![tactic(auto)]

mod fault;
mod files;
mod inputs;
mod status;

pub use fault::Fault;
pub use files::{DiskFiles, FileFault, Files};
pub use inputs::{ChannelFile, Configuration, Inputs, read_file, read_files, read_keys, text_in};
pub use status::{ACCEPTED, REFUSED, USAGE};
