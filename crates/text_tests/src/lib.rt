//! Tests of what is read from texts: policies and what satisfies them, lines and words, channels and key books.
#![tactic(auto)]

#[cfg(test)]
mod channels;
#[cfg(test)]
mod evaluating;
#[cfg(test)]
mod key_books;
#[cfg(test)]
mod lines;
#[cfg(test)]
mod parsing;
#[cfg(test)]
mod parts;
#[cfg(test)]
mod told;
