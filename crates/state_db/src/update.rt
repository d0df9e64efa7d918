//! The rows that a batch would make differ, encoded.
ghost use Rattle.std.specs.Prelude.{◌≡◌, ◌<◌, ◌^◌, ◌≤◌, ◌+◌, ◌++◌, ◌∷◌, [], length, drop, string_bytes, IfOk, OnOk};
ghost use Rattle.std.specs.List.{flat_map};
ghost use Rattle.std.specs.Option.{option_copied};
ghost use Rattle.std.specs.Str.{bytes_eq};
ghost use Rattle.byteorder.specs.Endian.{big_bytes};
ghost use Rattle.transaction.specs.Grammar.{counted, listed, optional, version_bytes};
ghost use Rattle.rules.specs.Differing.{policy_text, is_same_row, is_unchanged};
ghost use Rattle.rules.specs.CommitBytes.{row_bytes, change_bytes};
ghost use Rattle.std.specs.FinMap.{from_sorted};
ghost use Rattle.state_db.specs.Changing.{changing, if_changing};
ghost use Rattle.state_db.specs.LookedUp.{AreRows};
ghost use Rattle.state_db.specs.Pages.{joined, ArePages};

use crate::edit::Edit;
use crate::looked_up::row_from;
use crate::page::Page;
use byteorder::{BigEndian, ByteOrder};
use policy::Policy;
use rules::Row;
use state_keys::StateKey;
use std::alloc::{AllocError, Global};
use transaction::{Version, put_counted8, put_counted16, put_counted32, put_u32, put_u64};
use values::Shared;

// The count of edits, and what an edit takes besides its namespace, its key, and its row's value and policy.
const COUNT_BYTES: usize = 4;

const EDIT_BYTES: usize = 22;

fn value_len(row: &Row) -> usize {
    row.value.as_slice().len()
}

/// How many bytes an edit takes, but for a policy.
fn room_for_one(edit: &Edit) -> usize {
    EDIT_BYTES
        .saturating_add(edit.namespace().len())
        .saturating_add(edit.key().as_slice().len())
        .saturating_add(edit.row().map_or(0, value_len))
}

/// How many bytes these edits take if each makes its row differ, but for policies.
fn room_for(edits: &[Edit]) -> usize {
    let mut room = COUNT_BYTES;
    for edit in edits {
        room = room.saturating_add(room_for_one(edit));
    }
    room
}

fn put_version(out: &mut Vec<u8>, version: Version) -> Result<(), AllocError>
    ensures { OnOk result (out.new.items ≡ out.old.items ++ version_bytes version) }
{
    put_u64(out, version.block)?;
    put_u32(out, version.tx)
}

/// The canonical text of a policy, or no text if there is none.
fn text_of(alloc: Global, policy: &Option<Shared<Policy>>) -> Result<String, AllocError>
    ensures { IfOk result (λ text. string_bytes text ≡ policy_text policy.now) }
{
    match policy {
        None => Ok(String::new(alloc)),
        Some(policy) => policy.get().text(alloc),
    }
}

fn put_policy(
    alloc: Global,
    out: &mut Vec<u8>,
    policy: &Option<Shared<Policy>>,
) -> Result<(), AllocError>
    ensures { OnOk result (out.new.items ≡ out.old.items ++ counted 2 (policy_text policy.now)) }
{
    let text = text_of(alloc, policy)?;
    put_counted16(out, text.as_bytes())
}

fn put_row(alloc: Global, out: &mut Vec<u8>, row: &Row) -> Result<(), AllocError>
    ensures { OnOk result (out.new.items ≡ out.old.items ++ row_bytes row.now) }
{
    put_version(out, row.version)?;
    put_counted32(out, row.value.as_slice())?;
    put_policy(alloc, out, &row.policy)
}

fn put_optional(alloc: Global, out: &mut Vec<u8>, row: Option<&Row>) -> Result<(), AllocError>
    ensures { OnOk result (out.new.items ≡ out.old.items ++ optional row_bytes (option_copied row.entry)) }
{
    match row {
        None => {
            out.push(0)?;
            Ok(())
        }
        Some(row) => {
            out.push(1)?;
            put_row(alloc, out, row)
        }
    }
}

fn put_edit(alloc: Global, out: &mut Vec<u8>, edit: &Edit) -> Result<(), AllocError>
    ensures { OnOk result (out.new.items ≡ out.old.items ++ change_bytes edit.now) }
{
    put_counted8(out, edit.namespace().as_slice())?;
    put_counted16(out, edit.key().as_slice())?;
    put_optional(alloc, out, edit.row())
}

fn is_same_policy(
    alloc: Global,
    a: &Option<Shared<Policy>>,
    b: &Option<Shared<Policy>>,
) -> Result<bool, AllocError>
    ensures { IfOk result (λ same. same ≡ bytes_eq (policy_text a.now) (policy_text b.now)) }
{
    let a = text_of(alloc, a)?;
    let b = text_of(alloc, b)?;
    Ok(a.as_bytes() == b.as_bytes())
}

/// What a block writes has versions of its own, so that these mostly distinguish rows.
fn is_same_row(alloc: Global, a: &Row, b: &Row) -> Result<bool, AllocError>
    ensures { IfOk result (λ same. same ≡ is_same_row a.now b.now) }
{
    if a.version != b.version || a.value.as_slice() != b.value.as_slice() {
        return Ok(false);
    }
    is_same_policy(alloc, &a.policy, &b.policy)
}

fn is_unchanged(
    alloc: Global,
    before: Option<&Row>,
    after: Option<&Row>,
) -> Result<bool, AllocError>
    ensures { IfOk result (λ same. same ≡ is_unchanged (option_copied before.entry) (option_copied after.entry)) }
{
    match (before, after) {
        (None, None) => Ok(true),
        (Some(before), Some(after)) => is_same_row(alloc, before, after),
        _ => Ok(false),
    }
}

/// Adds an edit if it makes the row differ that its key had, and counts it.
fn put_if_changing(
    alloc: Global,
    out: &mut Vec<u8>,
    count: usize,
    before: Option<&Row>,
    edit: &Edit,
) -> Result<usize, AllocError>
    requires { count < 2 ^ 63 }
    ensures out { OnOk result (out.new.items ≡ out.old.items ++ flat_map change_bytes (if_changing (option_copied before.entry) edit.now)) }
    ensures count { IfOk result (λ n. n ≡ count + length (if_changing (option_copied before.entry) edit.now)) }
{
    if is_unchanged(alloc, before, edit.row())? {
        return Ok(count);
    }
    put_edit(alloc, out, edit)?;
    Ok(count + 1)
}

/// Adds the edits that make a row of these pages differ. Answers how many they are. The rows of some keys are known.
fn put_changing<'a>(
    alloc: Global,
    out: &mut Vec<u8>,
    pages: &'a [Page],
    keys: &[StateKey<'_>],
    rows: &[Option<&'a Row>],
    edits: &[Edit],
) -> Result<usize, AllocError>
    requires pages { ArePages pages.now }
    requires rows { AreRows (from_sorted (joined pages.now)) keys.now rows.now }
    ensures out { OnOk result (out.new.items ≡ out.old.items ++ flat_map change_bytes (changing (joined pages.now) edits.now)) }
    ensures count { IfOk result (λ n. n ≡ length (changing (joined pages.now) edits.now)) }
{
    let mut count = 0;
    let mut from = 0;
    for edit in edits {
        let (before, at) = row_from(pages, keys, rows, from, edit);
        count = put_if_changing(alloc, out, count, before, edit)?;
        from = at;
    }
    Ok(count)
}

/// Writes the lowest four bytes of a count over the first four.
fn set_count(out: &mut [u8], count: usize)
    requires { 4 ≤ length out.old }
    ensures { out.new ≡ big_bytes 4 count ++ drop 4 out.old }
{
    let mut bytes = [0; 8];
    BigEndian::write_u64(&mut bytes, count as u64);
    out[..4].copy_from_slice(&bytes[4..]);
}

/// How many edits make a row of these pages differ, and each of them. The count stands in front, and is known last. The
/// rows of some keys are known.
pub(crate) fn update_of<'a>(
    alloc: Global,
    pages: &'a [Page],
    keys: &[StateKey<'_>],
    rows: &[Option<&'a Row>],
    edits: &[Edit],
) -> Result<Vec<u8>, AllocError>
    requires pages { ArePages pages.now }
    requires rows { AreRows (from_sorted (joined pages.now)) keys.now rows.now }
    ensures { IfOk result (λ bytes. bytes.items ≡ listed 4 change_bytes (changing (joined pages.now) edits.now)) }
{
    let mut out = Vec::with_capacity(alloc, room_for(edits))?;
    out.extend_from_slice(&[0; 4])?;
    let count = put_changing(alloc, &mut out, pages, keys, rows, edits)?;
    set_count(out.as_mut_slice(), count);
    Ok(out)
}
