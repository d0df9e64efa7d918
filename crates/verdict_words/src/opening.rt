ghost use Rattle.std.specs.Prelude.{◌≡◌, ◌*◌, [], length, replicate, IfOk};
ghost use Rattle.verdict_words.specs.Words.{fresh};

use crate::lent::Lent;
use crate::rule::{TableSeat, Words};
use std::alloc::{AllocError, Global};

fn zero_words(alloc: Global, count: usize) -> Result<Vec<u64>, AllocError>
    ensures { IfOk result (λ words. words.items ≡ replicate count 0) }
{
    vec![in alloc; 0; count]
}

/// The words of a job, all unknown, and the first seat. Takes two words for each candidate; an `Err` is want of memory.
pub fn open<'a>(alloc: Global, lent: &Lent<'a>) -> Result<(Words<'a>, TableSeat), AllocError>
    ensures key { IfOk result (λ t. t.0.shared.key ≡ lent.now) }
    ensures words { IfOk result (λ t. t.0.shared.table_id.words ≡ 2 * length lent.now.candidates) }
    ensures table { IfOk result (λ t. t.1.table_id ≡ t.0.shared.table_id) }
    ensures fresh { IfOk result (λ t. t.1.me ≡ (fresh lent.now, [])) }
{
    let zeros = zero_words(alloc, 2 * lent.job().len() as usize)?;
    Words::of_words(alloc, zeros.as_slice(), lent)
}
