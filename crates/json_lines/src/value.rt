//! Strings and values, written piece by piece.
ghost use Rattle.std.specs.Prelude.{◌≡◌, OnOk};
ghost use Rattle.std.specs.List.{flat_map};
ghost use Rattle.std.specs.Str.{is_utf8};
ghost use Rattle.std.specs.Io.KnownBytes.{Appends};
ghost use Rattle.json_lines.specs.Json as spec;

use hex::encode_to_slice;
use std::io;
use std::io::Write;
use std::str::from_utf8;

// Two digits, in lower case.
fn write_digits<W: Write>(out: &mut W, byte: u8) -> io::Result<()>
    ensures { OnOk result (Appends (W.contents out.old) (W.contents out.new) (spec.digits_of byte)) }
{
    let mut digits = [0; 2];
    // They are two, so there is no other answer.
    encode_to_slice([byte], &mut digits).unwrap();
    out.write_all(&digits)
}

fn write_escaped<W: Write>(out: &mut W, byte: u8) -> io::Result<()>
    ensures { OnOk result (Appends (W.contents out.old) (W.contents out.new) (spec.escaped byte)) }
{
    match byte {
        b'"' => out.write_all(b"\\\""),
        b'\\' => out.write_all(b"\\\\"),
        0..=31 => {
            out.write_all(b"\\u00")?;
            write_digits(out, byte)
        }
        _ => out.write_all(&[byte]),
    }
}

fn write_characters<W: Write>(out: &mut W, bytes: &[u8]) -> io::Result<()>
    ensures { OnOk result (Appends (W.contents out.old) (W.contents out.new) (flat_map spec.escaped bytes.now)) }
{
    for byte in bytes {
        write_escaped(out, *byte)?;
    }
    Ok(())
}

fn write_all_digits<W: Write>(out: &mut W, bytes: &[u8]) -> io::Result<()>
    ensures { OnOk result (Appends (W.contents out.old) (W.contents out.new) (flat_map spec.digits_of bytes.now)) }
{
    for byte in bytes {
        write_digits(out, *byte)?;
    }
    Ok(())
}

/// Writes a JSON string of these bytes, which are to be UTF-8: `"` and `\` behind a backslash, bytes below 0x20 as `\u`
/// and four digits, and all others as they are. Linear in the bytes, and takes no memory.
pub fn write_string<W: Write>(out: &mut W, bytes: &[u8]) -> io::Result<()>
    ensures { OnOk result (Appends (W.contents out.old) (W.contents out.new) (spec.string_of bytes.now)) }
{
    out.write_all(b"\"")?;
    write_characters(out, bytes)?;
    out.write_all(b"\"")
}

fn write_hex_object<W: Write>(out: &mut W, bytes: &[u8]) -> io::Result<()>
    ensures { OnOk result (Appends (W.contents out.old) (W.contents out.new) (spec.hex_object_of bytes.now)) }
{
    out.write_all(b"{\"hex\":\"")?;
    write_all_digits(out, bytes)?;
    out.write_all(b"\"}")
}

fn is_text(bytes: &[u8]) -> bool
    ensures { result ≡ is_utf8 bytes.now }
{
    from_utf8(bytes).is_ok()
}

/// Writes any bytes as a JSON value: the string of `write_string` where they are UTF-8, and else `{"hex":"DIGITS"}`, in
/// lower case. Linear in the bytes, and takes no memory.
pub fn write_value<W: Write>(out: &mut W, bytes: &[u8]) -> io::Result<()>
    ensures { OnOk result (Appends (W.contents out.old) (W.contents out.new) (spec.value_of bytes.now)) }
{
    if is_text(bytes) {
        write_string(out, bytes)
    } else {
        write_hex_object(out, bytes)
    }
}
