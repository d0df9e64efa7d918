//! Tests of the ledger. Its blocks were made by scripts or are put together here, and their answers come from a committer
//! in Python, were worked out by hand, or are those of the plain committer.
#![tactic(auto)]

#[cfg(test)]
mod alike;
#[cfg(test)]
mod asked;
#[cfg(test)]
mod by_workers;
#[cfg(test)]
mod chain;
#[cfg(test)]
mod changed_updates;
#[cfg(test)]
mod commit_hashes;
#[cfg(test)]
mod committers;
#[cfg(test)]
mod explained_memory;
#[cfg(test)]
mod fixture;
#[cfg(test)]
mod forgers;
#[cfg(test)]
mod known;
#[cfg(test)]
mod large_blocks;
#[cfg(test)]
mod limits;
#[cfg(test)]
mod links;
#[cfg(test)]
mod long_block;
#[cfg(test)]
mod memory;
#[cfg(test)]
mod plain_peer;
#[cfg(test)]
mod prepared_chains;
#[cfg(test)]
mod prepared_refusals;
#[cfg(test)]
mod random_chains;
#[cfg(test)]
mod random_scripts;
#[cfg(test)]
mod random_updates;
#[cfg(test)]
mod refusals;
#[cfg(test)]
mod scripted;
#[cfg(test)]
mod shown;
#[cfg(test)]
mod spoiling;
#[cfg(test)]
mod submitting;
#[cfg(test)]
mod told;
#[cfg(test)]
mod update_chains;
#[cfg(test)]
mod update_faults;
#[cfg(test)]
mod update_messages;
#[cfg(test)]
mod update_rows;
#[cfg(test)]
mod updates;
#[cfg(test)]
mod updates_by_workers;
#[cfg(test)]
mod versions;
#[cfg(test)]
mod worked_chains;
