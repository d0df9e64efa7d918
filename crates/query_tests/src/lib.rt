//! Tests of published heights, and of the committer that publishes them. Blocks are drafted from scripts, or those of the
//! chain that is made in Python; what handles answer is compared with what the scripts say, and with what a world of its own
//! answers.
#![tactic(auto)]

#[cfg(test)]
mod alike;
#[cfg(test)]
mod asking;
#[cfg(test)]
mod at_random;
#[cfg(test)]
mod blocks;
#[cfg(test)]
mod closing;
#[cfg(test)]
mod committer_memory;
#[cfg(test)]
mod committing;
#[cfg(test)]
mod ended_runs;
#[cfg(test)]
mod heights;
#[cfg(test)]
mod long_block;
#[cfg(test)]
mod many_rows;
#[cfg(test)]
mod memory;
#[cfg(test)]
mod opening;
#[cfg(test)]
mod publishing;
#[cfg(test)]
mod running;
#[cfg(test)]
mod spoiling;
#[cfg(test)]
mod story;
#[cfg(test)]
mod telling;
#[cfg(test)]
mod threads;
#[cfg(test)]
mod updates;
