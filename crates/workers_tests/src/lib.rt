//! Tests of the desk and of checks in any order, by one thread and by many. Blocks are drafted from scripts; their flags were
//! worked out by hand, or are those of the checks in order.
#![tactic(auto)]

#[cfg(test)]
mod ahead;
#[cfg(test)]
mod asking;
#[cfg(test)]
mod building;
#[cfg(test)]
mod desk;
#[cfg(test)]
mod events;
#[cfg(test)]
mod holding;
#[cfg(test)]
mod meeting;
#[cfg(test)]
mod random_jobs;
#[cfg(test)]
mod rows;
#[cfg(test)]
mod schedules;
#[cfg(test)]
mod updates;
