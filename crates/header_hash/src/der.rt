ghost use Rattle.std.specs.Prelude.{◌≡◌, ◌≤◌, ◌<◌, ◌^◌, ◌+◌, ℕ, List, [], ◌++◌, length, take, drop};
ghost use Rattle.header_hash.specs.Der.{element, integer_octets, integer, previous_octets, der_of};
ghost use Rattle.header_hash.specs.Minimal.{IntegersAreMinimal};

use block::{Header, Previous};
use byteorder::{BigEndian, ByteOrder};
use std::marker::Model;

// Identifier octets: universal tags, of which only SEQUENCE is constructed (X.690, 8.1.2).
const INTEGER: u8 = 0x02;

const OCTET_STRING: u8 = 0x04;

const SEQUENCE: u8 = 0x30;

// The most octets of a number in two's complement: one for the sign, and eight.
const MAX_INTEGER: usize = 9;

// The most bytes of a header: an identifier and a length for it and for each element, the number,
// and two hashes.
const MAX_HEADER: usize = 8 + MAX_INTEGER + 2 * 32;

/// A header in DER, 81 bytes at most. A contract sees the list of them.
#[derive(Drop)]
pub struct Der {
    bytes: [u8; MAX_HEADER],
    len: usize,
}

impl Model for Der {
    ghost Value = { List ℕ };

    ghost view = { λ d. take d.len d.bytes };

    ghost invariant = { λ d. d.len ≤ 81 };
}

// Writes an element to the front of `out`: identifier, length in the short form, contents.
fn write_element(out: &mut [u8], tag: u8, contents: &[u8])
    requires room { length contents.now + 2 ≤ length out.old }
    requires short_form { length contents.now < 128 }
    ensures { out.new ≡ element tag contents.now ++ drop (length contents.now + 2) out.old }
{
    let len = contents.len();
    out[0] = tag;
    out[1] = len as u8;
    out[2..len + 2].copy_from_slice(contents);
}

// How many octets the number takes in two's complement: those of its bits and a sign bit.
fn integer_octets(number: u64) -> usize
    ensures count { result ≡ integer_octets number }
    ensures at_most { result ≤ 9 }
{
    let bits = u64::BITS - number.leading_zeros();
    (bits + 1).div_ceil(8) as usize
}

impl Der {
    fn new() -> Der
        ensures { result ≡ [] }
    {
        Der {
            bytes: [0; MAX_HEADER],
            len: 0,
        }
    }

    /// The bytes.
    pub fn as_slice(&self) -> &[u8]
        ensures bytes { result.now ≡ self.now }
        ensures at_most { length result.now ≤ 81 }
    {
        &self.bytes[..self.len]
    }

    fn push(&mut self, tag: u8, contents: &[u8])
        requires { length self.old + length contents.now + 2 ≤ 81 }
        ensures { self.new ≡ self.old ++ element tag contents.now }
    {
        write_element(&mut self.bytes[self.len..], tag, contents);
        self.len += contents.len() + 2;
    }

    fn push_integer(&mut self, number: u64)
        requires { length self.old + 11 ≤ 81 }
        ensures pushed { self.new ≡ self.old ++ integer number }
        ensures at_most { length self.new ≤ length self.old + 11 }
    {
        // The sign octet is 0: no block number is negative.
        let mut octets = [0; MAX_INTEGER];
        BigEndian::write_u64(&mut octets[1..], number);
        let spare = MAX_INTEGER - integer_octets(number);
        self.push(INTEGER, &octets[spare..]);
    }
}

fn previous_octets(previous: &Previous) -> &[u8]
    ensures octets { result.now ≡ previous_octets previous.now }
    ensures at_most { length result.now ≤ 32 }
{
    match previous {
        Previous::Empty => &[],
        Previous::Hash(hash) => hash,
    }
}

/// The DER bytes (X.690) of a header: SEQUENCE of INTEGER number, OCTET STRING previous and OCTET STRING data hash,
/// where INTEGER has no octet more than it needs. From 41 bytes, for block 0, to 81. Takes no memory, and its time is
/// bounded.
pub fn header_der(header: &Header) -> Der
    ensures der { result ≡ der_of header.now }
    ensures at_most { length result ≤ 81 }
{
    let mut elements = Der::new();
    elements.push_integer(header.number);
    elements.push(OCTET_STRING, previous_octets(&header.previous));
    elements.push(OCTET_STRING, &header.data_hash);
    let mut sequence = Der::new();
    sequence.push(SEQUENCE, elements.as_slice());
    sequence
}

/// Proved of the DER bytes of a number, in X.690's words (the function does nothing at run time): the contents octets
/// are the number with sign bit 0, no first octet could be left out, and no other octets are so.
pub fn integers_are_minimal()
    ensures { IntegersAreMinimal }
{}
