//! The words of one job, their rule and their steps.
use crate::lent::Lent;
use crate::view::View;
use atomic_table::{Play, Seat, Shared, Table, TableRule};
use std::alloc::Global;

/// Each word is unknown or the fold's verdict.
pub struct IsFound;

impl<'a> TableRule<u8, View, Lent<'a>> for IsFound {
    ghost use Rattle.verdict_words.specs.Words as words;

    ghost holds = { words.IsFound };

    ghost first = { words.fresh };
}

/// A load or a store.
pub(crate) struct Sees;

impl Play<u8, View> for Sees {
    ghost use Rattle.verdict_words.specs.Words.{sees};

    ghost then = { sees };
}

/// A new seat.
pub(crate) struct Begins;

impl Play<u8, View> for Begins {
    ghost use Rattle.verdict_words.specs.Words.{begins};

    ghost then = { begins };
}

/// The words of a job.
pub type Words<'a> = Table<u8, View, Lent<'a>, IsFound, Global>;

/// What all seats share of them: the steps of loading and storing a word.
pub type Steps<'a> = Shared<u8, View, Lent<'a>, IsFound>;

/// A seat at a table of words, apart from the table.
pub type TableSeat = Seat<u8, View>;
