//! Why the transactions of a block have their flags, as a graph in DOT, the language of Graphviz.
#![tactic(auto)]

mod graph;
mod label;
mod laws;
mod looks;
mod marks;
mod named;
mod quoted;

pub use graph::write_graph;
pub use laws::quoted_words_stay_quoted;
pub use quoted::QuotedWord;
