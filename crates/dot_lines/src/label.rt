//! What edges are about.
ghost use Rattle.std.specs.Prelude.{OnOk};
ghost use Rattle.std.specs.Io.KnownBytes.{Appends};
ghost use Rattle.dot_lines.specs.Edges as spec;

use crate::quoted::QuotedWord;
use reasons::{EndorsementFault, Reason};
use std::io;
use std::io::Write;
use values::{Key, Name};

// `NAMESPACE KEY`
fn write_key<W: Write>(out: &mut W, namespace: &Name, key: &Key) -> io::Result<()>
    ensures { OnOk result (Appends (W.contents out.old) (W.contents out.new) (spec.key_label namespace.now key.now)) }
{
    let (namespace, key) = (QuotedWord(namespace.as_slice()), QuotedWord(key.as_slice()));
    write!(out, "{namespace} {key}")
}

fn write_touched_key<W: Write>(out: &mut W, fault: &EndorsementFault) -> io::Result<()>
    ensures { OnOk result (Appends (W.contents out.old) (W.contents out.new) (spec.touched_label fault.now)) }
{
    match fault {
        EndorsementFault::Touched { namespace, key, .. } => write_key(out, namespace, key),
        _ => Ok(()),
    }
}

/// Writes the key that the reason is about, in its namespace, or `id`; nothing if it names no transaction.
pub(crate) fn write_label<W: Write>(out: &mut W, reason: &Reason) -> io::Result<()>
    ensures { OnOk result (Appends (W.contents out.old) (W.contents out.new) (spec.label_of reason.now)) }
{
    match reason {
        Reason::UsedId(_) => write!(out, "id"),
        Reason::NotEndorsed(fault) => write_touched_key(out, fault),
        Reason::ReadConflict(read) => write_key(out, &read.namespace, &read.key),
        Reason::PhantomConflict(phantom) => {
            write_key(out, &phantom.range.namespace, &phantom.key)
        }
        _ => Ok(()),
    }
}
