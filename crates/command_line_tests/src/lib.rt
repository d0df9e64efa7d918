//! Tests of `command_line` by its public names: the lines and statuses of whole runs, over files in
//! memory or on disk, and writers that keep or fail. Hashes are those of Python's hashlib over header
//! bytes made by hand; what scripts come to is that of a reading of them in Python.
#![tactic(auto)]

#[cfg(test)]
mod answers;
#[cfg(test)]
mod blocks;
#[cfg(test)]
mod counted;
#[cfg(test)]
mod cut_off;
#[cfg(test)]
mod disk;
#[cfg(test)]
mod drafted;
#[cfg(test)]
mod drawn;
#[cfg(test)]
mod explained;
#[cfg(test)]
mod files;
#[cfg(test)]
mod fixture;
#[cfg(test)]
mod full;
#[cfg(test)]
mod hostile;
#[cfg(test)]
mod json;
#[cfg(test)]
mod known;
#[cfg(test)]
mod large;
#[cfg(test)]
mod limits;
#[cfg(test)]
mod memory;
#[cfg(test)]
mod outputs;
#[cfg(test)]
mod progress;
#[cfg(test)]
mod session;
#[cfg(test)]
mod signatures;
#[cfg(test)]
mod texts;
#[cfg(test)]
mod words;
