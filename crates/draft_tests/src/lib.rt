//! Tests of draft scripts and the blocks that they make. Bytes come from a reader in Python, faulty lines were counted
//! by hand.
#![tactic(auto)]

#[cfg(test)]
mod drafting;
#[cfg(test)]
mod faults;
#[cfg(test)]
mod fixture;
#[cfg(test)]
mod lengths;
#[cfg(test)]
mod listed_signatures;
#[cfg(test)]
mod memory;
#[cfg(test)]
mod reading;
#[cfg(test)]
mod shown;
#[cfg(test)]
mod updates;
