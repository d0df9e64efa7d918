//! Tests of what is counted of a chain.
#![tactic(auto)]

#[cfg(test)]
mod counting;
#[cfg(test)]
mod vectors;
