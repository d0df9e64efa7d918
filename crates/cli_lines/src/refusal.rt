ghost use Rattle.std.specs.Prelude.{◌≡◌, ◌↔◌, ◌⊎◌, Some, IsErr, IfOk};
ghost use Rattle.block.specs.declared.fault.BlockFault.TheVariants as block_fault;
ghost use Rattle.rules.specs.declared.answer.Refused.TheVariants as refused_as;
ghost use Rattle.cli_lines.specs.BlockLines as spec;

use block::BlockFault;
use rules::Refused;
use std::alloc::AllocError;
use std::fmt;

/// Why a block was rejected, which prints as the lines name it. Out of memory is none of them.
#[derive(Clone, Copy)]
pub enum Refusal {
    BadMagic,
    Truncated,
    PreviousLength,
    TooManyTxs,
    TxTooLong,
    TrailingBytes,
    WrongNumber { want: u64, got: u64 },
    WrongPrevious,
    WrongDataHash,
    OldVersion,
}

impl Refusal {
    /// The refusal, unless it is out of memory. Takes no memory.
    pub fn of(refused: Refused) -> Result<Refusal, AllocError>
        ensures refusal { IfOk result (λ refusal. spec.refusal_of refused ≡ Some refusal) }
        ensures memory { IsErr result ↔ (refused ≡ refused_as.Memory ⊎ refused ≡ refused_as.Malformed block_fault.Memory) }
    {
        Ok(match refused {
            Refused::Malformed(BlockFault::BadMagic) => Refusal::BadMagic,
            Refused::Malformed(BlockFault::Truncated) => Refusal::Truncated,
            Refused::Malformed(BlockFault::PreviousLength) => Refusal::PreviousLength,
            Refused::Malformed(BlockFault::TooManyTxs) => Refusal::TooManyTxs,
            Refused::Malformed(BlockFault::TxTooLong) => Refusal::TxTooLong,
            Refused::Malformed(BlockFault::TrailingBytes) => Refusal::TrailingBytes,
            Refused::WrongNumber { want, got } => Refusal::WrongNumber { want, got },
            Refused::WrongPrevious => Refusal::WrongPrevious,
            Refused::WrongDataHash => Refusal::WrongDataHash,
            Refused::OldVersion => Refusal::OldVersion,
            Refused::Malformed(BlockFault::Memory) | Refused::Memory => return Err(AllocError),
        })
    }

    /// What precedes the numbers of a refusal, if it has any.
    pub(crate) fn code(&self) -> &'static str
        ensures { result.now ≡ spec.code_of self.now }
    {
        match self {
            Refusal::BadMagic => "C1 B1",
            Refusal::Truncated => "C1 B2",
            Refusal::PreviousLength => "C1 B3",
            Refusal::TooManyTxs => "C1 B4",
            Refusal::TxTooLong => "C1 B5",
            Refusal::TrailingBytes => "C1 B6",
            Refusal::WrongNumber { .. } => "C2",
            Refusal::WrongPrevious => "C3",
            Refusal::WrongDataHash => "C4",
            Refusal::OldVersion => "C8",
        }
    }
}

impl fmt::Display for Refusal {
    ghost output = { λ refusal. Some (spec.refusal_text refusal) };

    fn fmt<W: fmt::Write>(&self, f: &mut fmt::Formatter<W>) -> fmt::Result {
        f.write_str(self.code())?;
        match self {
            Refusal::WrongNumber { want, got } => write!(f, " want {want} got {got}"),
            _ => Ok(()),
        }
    }
}
