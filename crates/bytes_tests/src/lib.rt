//! Tests of bytes: blocks, transactions and updates both ways, headers and hashes.
#![tactic(auto)]

#[cfg(test)]
mod blocks;
#[cfg(test)]
mod changes;
#[cfg(test)]
mod fields;
#[cfg(test)]
mod header_hashes;
#[cfg(test)]
mod parts;
#[cfg(test)]
mod told;
#[cfg(test)]
mod too_large;
#[cfg(test)]
mod transactions;
#[cfg(test)]
mod updates;
