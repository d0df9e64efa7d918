//! The nodes and edges of a block.
ghost use Rattle.std.specs.Prelude.{Bool, if◌then◌else◌, [], length, OnOk};
ghost use Rattle.std.specs.Io.KnownBytes.{Appends};
ghost use Rattle.dot_lines.specs.Edges.{named_by};
ghost use Rattle.dot_lines.specs.Graph as spec;

use crate::label::write_label;
use crate::looks::write_look;
use crate::marks::{has_edge, named_places};
use crate::named::{Named, named_by};
use cli_lines::{LineFault, name_of};
use reasons::Reason;
use rules::Flag;
use std::alloc::Global;
use std::io;
use std::io::Write;

fn write_node_label<W: Write>(out: &mut W, place: usize, flag: Flag) -> io::Result<()>
    ensures { OnOk result (Appends (W.contents out.old) (W.contents out.new) (spec.node_label place flag)) }
{
    let (code, name) = (flag.number(), name_of(flag));
    write!(out, "  t{place} [label=\"{place}\\n{code} {name}\"")
}

fn write_node<W: Write>(out: &mut W, place: usize, flag: Flag) -> io::Result<()>
    ensures { OnOk result (Appends (W.contents out.old) (W.contents out.new) (spec.node_line place flag)) }
{
    write_node_label(out, place, flag)?;
    write_look(out, flag)?;
    Ok(())
}

// A transaction of an earlier block is a small node without a frame. Those of the block have theirs.
fn write_earlier_node<W: Write>(out: &mut W, named: Named) -> io::Result<()>
    ensures { OnOk result (Appends (W.contents out.old) (W.contents out.new) (spec.earlier_node named)) }
{
    match named {
        Named::Here(_) => Ok(()),
        Named::Earlier { block, tx } => writeln!(
            out,
            "  {named} [label=\"{block} {tx}\", shape=plain, style=\"\", fontsize=10]"
        ),
    }
}

fn write_edge<W: Write>(out: &mut W, place: usize, named: Named, reason: &Reason) -> io::Result<()>
    ensures { OnOk result (Appends (W.contents out.old) (W.contents out.new) (spec.edge_lines place named reason.now)) }
{
    write_earlier_node(out, named)?;
    write!(out, "  t{place} -> {named} [label=\"")?;
    write_label(out, reason)?;
    writeln!(out, "\"]")?;
    Ok(())
}

fn write_edges<W: Write>(out: &mut W, place: usize, reason: &Reason) -> io::Result<()>
    ensures { OnOk result (Appends (W.contents out.old) (W.contents out.new) (spec.edges_to (named_by reason.now) place reason.now)) }
{
    match named_by(reason) {
        Some(named) => write_edge(out, place, named, reason),
        None => Ok(()),
    }
}

fn write_place<W: Write>(out: &mut W, place: usize, reason: &Reason) -> io::Result<()>
    ensures { OnOk result (Appends (W.contents out.old) (W.contents out.new) (spec.place_lines place reason.now)) }
{
    write_node(out, place, reason.flag())?;
    write_edges(out, place, reason)?;
    Ok(())
}

fn write_where<W: Write>(out: &mut W, shown: bool, place: usize, reason: &Reason) -> io::Result<()>
    ensures { OnOk result (Appends (W.contents out.old) (W.contents out.new) (if shown then spec.place_lines place reason.now else [])) }
{
    if shown {
        write_place(out, place, reason)
    } else {
        Ok(())
    }
}

fn write_places<W: Write>(
    out: &mut W,
    reasons: &[Reason],
    named: &[bool],
    all: bool,
) -> io::Result<()>
    requires { spec.AreNamed reasons.now named.now }
    ensures { OnOk result (Appends (W.contents out.old) (W.contents out.new) (spec.first_lines all reasons.now (length reasons.now))) }
{
    for (place, reason) in reasons.iter().enumerate() {
        let shown = all || has_edge(named, place, reason);
        write_where(out, shown, place, reason)?;
    }
    Ok(())
}

fn write_style<W: Write>(out: &mut W) -> io::Result<()>
    ensures { OnOk result (Appends (W.contents out.old) (W.contents out.new) spec.style) }
{
    out.write_all(
        b"  rankdir=RL\n  \
        node [fontname=\"sans-serif\", fontsize=12, style=filled]\n  \
        edge [fontname=\"sans-serif\", fontsize=10]\n",
    )
}

fn write_opening<W: Write>(out: &mut W, number: u64) -> io::Result<()>
    ensures { OnOk result (Appends (W.contents out.old) (W.contents out.new) (spec.opening number)) }
{
    writeln!(out, "digraph \"block {number}\" {{")?;
    write_style(out)?;
    Ok(())
}

fn write_whole<W: Write>(
    out: &mut W,
    number: u64,
    reasons: &[Reason],
    named: &[bool],
    all: bool,
) -> io::Result<()>
    requires { spec.AreNamed reasons.now named.now }
    ensures { OnOk result (Appends (W.contents out.old) (W.contents out.new) (spec.graph_text number all reasons.now)) }
{
    write_opening(out, number)?;
    write_places(out, reasons, named, all)?;
    writeln!(out, "}}")?;
    Ok(())
}

/// Writes the block of this number as a graph: a node for each transaction that has these reasons, and an edge from it
/// to the one that its reason names, labelled with the key. Without `all`, transactions that have no edge are left out.
/// Takes a byte for each transaction; linear in the text.
pub fn write_graph<W: Write>(
    alloc: Global,
    out: &mut W,
    number: u64,
    reasons: &[Reason],
    all: bool,
) -> Result<(), LineFault>
    ensures { OnOk result (Appends (W.contents out.old) (W.contents out.new) (spec.graph_text number all reasons.now)) }
{
    let named = named_places(alloc, reasons)?;
    write_whole(out, number, reasons, named.as_slice(), all)?;
    Ok(())
}
