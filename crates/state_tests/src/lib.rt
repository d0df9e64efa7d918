//! Tests of what a ledger holds: rows in pages, used ids, histories, worlds.
#![tactic(auto)]

#[cfg(test)]
mod deltas;
#[cfg(test)]
mod fixture;
#[cfg(test)]
mod held;
#[cfg(test)]
mod histories;
#[cfg(test)]
mod ids;
#[cfg(test)]
mod key_order;
#[cfg(test)]
mod noted;
#[cfg(test)]
mod pages;
#[cfg(test)]
mod steps;
#[cfg(test)]
mod update_bytes;
#[cfg(test)]
mod worlds;
