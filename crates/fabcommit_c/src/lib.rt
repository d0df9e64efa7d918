//! The ledger for C, and for what calls C: the calls of [`c_calls`], under the names that `include/fabcommit.h` declares.
#![tactic(auto)]

mod blocks;
mod ledgers;
mod questions;
