ghost use Rattle.std.specs.Prelude.{◌≡◌, ◌<◌, None, Some, length, replicate, slice_set, slice_index_or, IfOk};
ghost use Rattle.key_chains.specs.Cells.{no_cells, cells_at, known_of};

use crate::board::Board;
use rules::Flag;
use std::alloc::{AllocError, Global};
use std::marker::Model;

/// What is known of one candidate.
#[derive(Clone, Copy)]
pub struct Cells {
    pub endorsed: Option<bool>,
    pub flag: Option<Flag>,
}

/// A board that its owner alone fills. A contract sees the cells of each candidate.
#[derive(Drop)]
pub struct PlainBoard {
    cells: Vec<Cells>,
}

impl Model for PlainBoard {
    ghost use Rattle.std.specs.Prelude.{List};
    ghost use Rattle.key_chains.specs.declared.plain_board.Cells.{Cells};

    ghost Value = { List Cells };

    ghost view = { λ b. b.cells.items };
}

impl PlainBoard {
    /// A board for so many candidates, of which nothing is known. Memory for two cells each.
    pub fn new(alloc: Global, count: usize) -> Result<PlainBoard, AllocError>
        ensures { IfOk result (λ b. b ≡ replicate count no_cells) }
    {
        let cells = Cells {
            endorsed: None,
            flag: None,
        };
        Ok(PlainBoard {
            cells: vec![in alloc; cells; count]?,
        })
    }

    /// What is known of a candidate.
    pub fn cells(&self, i: u32) -> Cells
        requires { i < length self.now }
        ensures { result ≡ cells_at self.now i }
    {
        self.cells.as_slice()[i as usize]
    }

    /// Sets what is known of a candidate.
    pub fn set(&mut self, i: u32, cells: Cells)
        requires { i < length self.old }
        ensures { self.new ≡ slice_set self.old i cells }
    {
        self.cells[i as usize] = cells;
    }
}

impl Board for PlainBoard {
    ghost use Rattle.std.specs.Prelude.{length};
    ghost use Rattle.key_chains.specs.Cells.{known_of, Unchanged, stays, goes_on, same_count, grows};

    ghost count = { length };

    ghost known = { known_of };

    ghost moves = { Unchanged };

    fn endorsed(&mut self, i: u32) -> Option<bool> {
        self.cells(i).endorsed
    }

    fn flag(&mut self, i: u32) -> Option<Flag> {
        self.cells(i).flag
    }

    ghost stays = { stays };

    ghost goes_on = { goes_on };

    ghost same_count = { same_count };

    ghost grows = { grows };
}
