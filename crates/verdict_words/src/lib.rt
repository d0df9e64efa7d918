//! The verdicts of one block as words that all workers read and write, and a worker's seat at them.
//!
//! Whatever workers do and when, a word is unknown, or the verdict of the candidates taken one by one.
#![tactic(auto)]

mod cells;
mod laws;
mod lent;
mod opening;
mod rule;
mod seat;
mod view;

pub use laws::words_show_a_sound_board;
pub use lent::Lent;
pub use opening::open;
pub use rule::{IsFound, Steps, TableSeat, Words};
pub use seat::VerdictSeat;
pub use view::View;
