//! What a handle answers, compared with what chains leave behind.

use crate::fixture::{lent_key, lent_name};
use crate::shown::{is_wanted_history, is_wanted_row, is_wanted_use};
use chain_vectors::{Left, Used, read_use};
use commit::QueryHandle;
use std::alloc::Global;
use test_support::{Failed, check};

fn check_row(alloc: Global, handle: &mut QueryHandle, left: &Left) -> Result<(), Failed> {
    let reply = handle.get(&lent_name(left.namespace)?, &lent_key(left.key)?)?;
    check(is_wanted_row(alloc, reply.answer.as_ref(), &left.row)?)
}

fn check_history(alloc: Global, handle: &mut QueryHandle, left: &Left) -> Result<(), Failed> {
    let reply = handle.history(alloc, &lent_name(left.namespace)?, &lent_key(left.key)?)?;
    check(is_wanted_history(alloc, reply.answer.as_slice(), left.history)?)
}

fn check_use(handle: &mut QueryHandle, used: Used) -> Result<(), Failed> {
    let reply = handle.flag_of(&used.id)?;
    check(is_wanted_use(reply.answer, used))
}

/// Wants these rows, histories and first uses answered.
pub fn check_left(
    alloc: Global,
    handle: &mut QueryHandle,
    rows: &[Left],
    uses: &[[u8; 67]],
) -> Result<(), Failed> {
    for left in rows {
        check_row(alloc, handle, left)?;
        check_history(alloc, handle, left)?;
    }
    for used in uses {
        check_use(handle, read_use(used))?;
    }
    Ok(())
}
