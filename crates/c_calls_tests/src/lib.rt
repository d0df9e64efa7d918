//! Tests of the calls for C, by a caller who checks signatures: the chain of 32 blocks, handles that share a ledger, and
//! what calls refuse.
#![tactic(auto)]

#[cfg(test)]
mod answers;
#[cfg(test)]
mod caller;
#[cfg(test)]
mod chain;
#[cfg(test)]
mod refusals;
#[cfg(test)]
mod sharing;
