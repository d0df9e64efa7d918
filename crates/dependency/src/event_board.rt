ghost use Rattle.std.specs.Prelude.{◌≡◌, length, map, take, IfOk};
ghost use Rattle.dependency.specs.Rows.{flag_number};

use key_chains::PlainBoard;
use rules::Flag;
use std::alloc::{AllocError, Global};
use std::marker::Model;

/// The number of an unknown flag, as in `peer.TxValidationCode`. No block is kept with it.
pub const NOT_VALIDATED: u8 = 254;

/// What some checks of a block found. A contract sees two rows of cells, for endorsements and for flags, each unknown
/// or known.
#[derive(Drop)]
pub struct EventBoard {
    pub(crate) cells: PlainBoard,
    pub(crate) count: u32,
}

impl Model for EventBoard {
    ghost use Rattle.std.specs.Prelude.{◌≡◌, length};
    ghost use Rattle.rules.specs.Machine.{Board};
    ghost use Rattle.dependency.specs.Rows.{board_of};

    ghost Value = { Board };

    ghost view = { λ b. board_of b.cells };

    ghost invariant = { λ b. length b.cells ≡ b.count };
}

fn number(flag: Option<Flag>) -> u8
    ensures { result ≡ flag_number flag }
{
    match flag {
        None => NOT_VALIDATED,
        Some(flag) => flag.number(),
    }
}

impl EventBoard {
    /// The flag of each candidate, as its number; `NOT_VALIDATED` if it is unknown. Memory for a byte of each; an `Err`
    /// is out of memory.
    pub fn flags(&self, alloc: Global) -> Result<Vec<u8>, AllocError>
        ensures { IfOk result (λ numbers. numbers.items ≡ map flag_number self.now.flags) }
    {
        let mut numbers = Vec::with_capacity(alloc, self.count as usize)?;
        for i in 0..self.count {
            numbers.push(number(self.cells.cells(i).flag))?;
        }
        Ok(numbers)
    }
}
