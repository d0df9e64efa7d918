//! What goes into C's buffers: all of it, or nothing.
ghost use Rattle.std.specs.Prelude.{◌≡◌, ◌≤◌, length, map};
ghost use Rattle.rules.specs.Flags.{number_of};
ghost use Rattle.c_calls.specs.Buffers.{with_front, Filled};

use crate::codes::{OK, SMALL};
use reason_lists::{PooledIdentity, PooledReason};
use rules::Flag;
use verdicts::Verdict;

pub(crate) fn put_bytes(out: &mut [u8], bytes: &[u8])
    requires { length bytes.now ≤ length out.old }
    ensures { out.new ≡ with_front bytes.now out.old }
{
    out[..bytes.len()].copy_from_slice(bytes);
}

pub(crate) fn put_verdicts(out: &mut [Verdict], verdicts: &[Verdict])
    requires { length verdicts.now ≤ length out.old }
    ensures { out.new ≡ with_front verdicts.now out.old }
{
    out[..verdicts.len()].copy_from_slice(verdicts);
}

pub(crate) fn put_reasons(out: &mut [PooledReason], reasons: &[PooledReason])
    requires { length reasons.now ≤ length out.old }
    ensures { out.new ≡ with_front reasons.now out.old }
{
    out[..reasons.len()].copy_from_slice(reasons);
}

pub(crate) fn put_identities(out: &mut [PooledIdentity], identities: &[PooledIdentity])
    requires { length identities.now ≤ length out.old }
    ensures { out.new ≡ with_front identities.now out.old }
{
    out[..identities.len()].copy_from_slice(identities);
}

fn put_flags(out: &mut [u8], flags: &[Flag])
    requires { length flags.now ≤ length out.old }
    ensures { out.new ≡ with_front (map number_of flags.now) out.old }
{
    let mut i = 0;
    while i < flags.len() {
        out[i] = flags[i].number();
        i += 1;
    }
}

/// Writes bytes if they fit, and tells how many they are.
pub(crate) fn fill(out: &mut [u8], bytes: &[u8], len: &mut usize) -> u32
    ensures { Filled bytes.now out.old out.new len.new result }
{
    *len = bytes.len();
    if bytes.len() > out.len() {
        return SMALL;
    }
    put_bytes(out, bytes);
    OK
}

/// Writes the numbers of flags if they fit, and tells how many they are.
pub(crate) fn fill_flags(out: &mut [u8], flags: &[Flag], len: &mut usize) -> u32
    ensures { Filled (map number_of flags.now) out.old out.new len.new result }
{
    *len = flags.len();
    if flags.len() > out.len() {
        return SMALL;
    }
    put_flags(out, flags);
    OK
}
