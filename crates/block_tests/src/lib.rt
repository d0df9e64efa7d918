//! Tests of the two checks of a block, no matter what is known: small jobs are judged by every assignment of the
//! unknown verdicts, over plain lists. And of what a block changes, and of an update.
#![tactic(auto)]

#[cfg(test)]
mod asking;
#[cfg(test)]
mod building;
#[cfg(test)]
mod cases;
#[cfg(test)]
mod drawing;
#[cfg(test)]
mod outcome;
#[cfg(test)]
mod random_jobs;
#[cfg(test)]
mod real_changes;
#[cfg(test)]
mod room;
#[cfg(test)]
mod rows;
#[cfg(test)]
mod spelling;
#[cfg(test)]
mod sure;
#[cfg(test)]
mod updates;
#[cfg(test)]
mod verdicts;
