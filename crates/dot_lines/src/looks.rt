//! What nodes look like: shapes distinguish flags without colours too.
ghost use Rattle.std.specs.Prelude.{◌≡◌, OnOk};
ghost use Rattle.std.specs.Io.KnownBytes.{Appends};
ghost use Rattle.dot_lines.specs.Graph as spec;

use rules::Flag;
use std::io;
use std::io::Write;

fn shape_of(flag: Flag) -> &'static str
    ensures { result.now ≡ spec.shape_of flag }
{
    match flag {
        Flag::Valid => "ellipse",
        Flag::EndorsementPolicyFailure => "house",
        Flag::MvccReadConflict => "octagon",
        Flag::PhantomReadConflict => "hexagon",
        Flag::DuplicateTxId => "trapezium",
        _ => "box",
    }
}

fn colour_of(flag: Flag) -> &'static str
    ensures { result.now ≡ spec.colour_of flag }
{
    match flag {
        Flag::Valid => "#dcefdc",
        Flag::EndorsementPolicyFailure => "#fbe3b6",
        Flag::MvccReadConflict => "#f8c9c4",
        Flag::PhantomReadConflict => "#e3cdf2",
        Flag::DuplicateTxId => "#cfe2f7",
        _ => "#e6e6e6",
    }
}

/// Writes the flag's shape and colour, to the end of the node's line.
pub(crate) fn write_look<W: Write>(out: &mut W, flag: Flag) -> io::Result<()>
    ensures { OnOk result (Appends (W.contents out.old) (W.contents out.new) (spec.look_of flag)) }
{
    let (shape, colour) = (shape_of(flag), colour_of(flag));
    writeln!(out, ", shape={shape}, fillcolor=\"{colour}\"]")
}
