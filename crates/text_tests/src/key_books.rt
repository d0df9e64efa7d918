use key_book::{KeyBook, KeyBookFault, hmac_sha256, read_identity};
use policy_eval::Verify;
use std::alloc::{AllocError, Global};
use test_support::{Failed, Outcome, begins};
use transaction::{Identity, OwnedIdentity, Role};
use values::{Hash, NameRef, Slice, is_name};

// Organization, role and label.
type Member = (&'static [u8], Role, &'static [u8]);

// None where the organization has no name.
fn identity((org, role, label): Member) -> Option<Identity<'static>> {
    if !is_name(org) {
        return None;
    }
    Some(Identity {
        org: NameRef::new(org),
        role,
        label: Slice::new(label),
    })
}

// The line of the first fault, or none where the text is a key book.
fn faulty_line(alloc: Global, text: &str) -> Result<Option<u64>, KeyBookFault> {
    match KeyBook::read(alloc, text) {
        Ok(_) => Ok(None),
        Err(KeyBookFault::Line(line)) => Ok(Some(line)),
        Err(KeyBookFault::Memory) => Err(KeyBookFault::Memory),
    }
}

// Keys, messages, and the digits of the hash.
fn hmacs() -> &'static [(&'static [u8], &'static [u8], &'static str)] {
    &HMACS
}

static HMACS: [(&[u8], &[u8], &str); 6] = [
    // The test cases 1 to 4 of RFC 4231, whose keys are no longer than a block.
    (
        &[0x0b; 20],
        b"Hi There",
        "b0344c61d8db38535ca8afceaf0bf12b881dc200c9833da726e9376c2e32cff7",
    ),
    (
        b"Jefe",
        b"what do ya want for nothing?",
        "5bdcc146bf60754e6a042426089575c75a003f089d2739839dec58b964ec3843",
    ),
    (
        &[0xaa; 20],
        &[0xdd; 50],
        "773ea91e36800e46854db8ebd09181a72959098b3ef8c122d9635514ced565fe",
    ),
    (
        &[
            1, 2, 3, 4, 5, 6, 7, 8, 9, 10, 11, 12, 13, 14, 15, 16, 17, 18, 19, 20, 21, 22, 23, 24,
            25,
        ],
        &[0xcd; 50],
        "82558a389a443c0ea4cc819899f2083a85f0faa3e578f8077a2e3ff46729665b",
    ),
    // Python: hmac.new(b'a' * 64, b'', 'sha256').hexdigest(), and the same of b'' and b''.
    (
        &[b'a'; 64],
        b"",
        "b389ef8fc24e40e35b42b70221b466916836a241257699d090bc736b8ad21b98",
    ),
    (
        b"",
        b"",
        "b613679a0814d9ec772f95d778c35fc5ff1697c493715653c6c712144292c5ad",
    ),
];

fn has_digits(alloc: Global, hash: Hash, digits: &str) -> Result<bool, AllocError> {
    Ok(hex::encode(alloc, hash)?.as_str() == digits)
}

fn is_hmac(alloc: Global, key: &[u8], message: &[u8], digits: &str) -> Result<bool, AllocError> {
    if key.len() > 64 {
        return Ok(false);
    }
    has_digits(alloc, hmac_sha256(key, message), digits)
}

#[test]
fn rfc_4231_longest_and_shortest_key(rt: HostRuntime) -> Result<(), AllocError> {
    for &(key, message, digits) in hmacs() {
        assert!(rt; is_hmac(rt.alloc(), key, message, digits)?, "{digits}");
    }
    Ok(())
}

// Test case 2 of RFC 4231: its key is that of Org1:peer:p0.
const BOOK: &str = "Org1:peer:p0 4A656665\nOrg1:client:p0 00\n";

const MESSAGE: &[u8] = b"what do ya want for nothing?";

const SIGNATURE: &str = "5bdcc146bf60754e6a042426089575c75a003f089d2739839dec58b964ec3843";

const PEER: Member = (b"Org1", Role::Peer, b"p0");

fn is_accepted(
    alloc: Global,
    signer: Member,
    message: &[u8],
    signature: &[u8],
) -> Result<bool, KeyBookFault> {
    let book = KeyBook::read(alloc, BOOK)?;
    match identity(signer) {
        Some(signer) => Ok(book.verify(&signer, message, signature)),
        None => Ok(false),
    }
}

// Signatures by their digits, and whether they are the signer's.
fn signatures_of() -> &'static [(Member, &'static [u8], &'static str, bool)] {
    &SIGNATURES
}

static SIGNATURES: [(Member, &[u8], &str, bool); 13] = [
    (PEER, MESSAGE, SIGNATURE, true),
    (
        PEER,
        MESSAGE,
        "5bdcc146bf60754e6a042426089575c75a003f089d2739839dec58b964ec3842",
        false,
    ),
    (
        PEER,
        MESSAGE,
        "dbdcc146bf60754e6a042426089575c75a003f089d2739839dec58b964ec3843",
        false,
    ),
    (
        PEER,
        MESSAGE,
        "5bdcc146bf60754e6a042426089575c75a003f089d2739839dec58b964ec38",
        false,
    ),
    (
        PEER,
        MESSAGE,
        "5bdcc146bf60754e6a042426089575c75a003f089d2739839dec58b964ec384300",
        false,
    ),
    (PEER, MESSAGE, "", false),
    (PEER, b"another message", SIGNATURE, false),
    // Other identities.
    ((b"Org1", Role::Client, b"p0"), MESSAGE, SIGNATURE, false),
    ((b"Org1", Role::Admin, b"p0"), MESSAGE, SIGNATURE, false),
    ((b"Org2", Role::Peer, b"p0"), MESSAGE, SIGNATURE, false),
    ((b"Org1", Role::Peer, b"p1"), MESSAGE, SIGNATURE, false),
    ((b"Org1", Role::Peer, b"p"), MESSAGE, SIGNATURE, false),
    ((b"Org1", Role::Peer, b""), MESSAGE, SIGNATURE, false),
];

// None where the digits are faulty.
fn are_digits_accepted(
    alloc: Global,
    signer: Member,
    message: &[u8],
    digits: &str,
) -> Result<Option<bool>, KeyBookFault> {
    match hex::decode(alloc, digits) {
        Ok(signature) => Ok(Some(is_accepted(alloc, signer, message, signature.as_slice())?)),
        Err(_) => Ok(None),
    }
}

#[test]
fn signatures(rt: HostRuntime) -> Result<(), KeyBookFault> {
    for (row, &(signer, message, digits, wanted)) in signatures_of().iter().enumerate() {
        let found = are_digits_accepted(rt.alloc(), signer, message, digits)?;
        assert!(rt; found == Some(wanted), "row {row}");
    }
    Ok(())
}

// What the book has this one sign the message by.
fn signed(alloc: Global, signer: Member) -> Result<Option<Hash>, KeyBookFault> {
    let book = KeyBook::read(alloc, BOOK)?;
    match identity(signer) {
        Some(signer) => Ok(book.sign(&signer, MESSAGE)),
        None => Ok(None),
    }
}

fn is_signed(alloc: Global, signer: Member, digits: Option<&str>) -> Result<bool, KeyBookFault> {
    match (signed(alloc, signer)?, digits) {
        (Some(hash), Some(digits)) => Ok(has_digits(alloc, hash, digits)?),
        (None, None) => Ok(true),
        _ => Ok(false),
    }
}

#[test]
fn signs(rt: HostRuntime) -> Result<(), KeyBookFault> {
    assert!(rt; is_signed(rt.alloc(), PEER, Some(SIGNATURE))?);
    assert!(rt; is_signed(rt.alloc(), (b"Org1", Role::Orderer, b"p0"), None)?);
    Ok(())
}

// Texts, and the lines of their faults.
fn books() -> &'static [(&'static str, Option<u64>)] {
    &BOOKS
}

static BOOKS: [(&str, Option<u64>); 24] = [
    ("", None),
    (
        "# a book\n\n  Org1:peer:p0   4a656665  \r\n\n#\nOrg1:client:p0 00",
        None,
    ),
    // The role, the organization or the label may be the only difference.
    (
        "A:peer:x 00\nA:admin:x 00\nA:orderer:x 00\nB:peer:x 00\nA:peer:X 00\n",
        None,
    ),
    ("A:peer:x 00\n# again\nA:peer:x 01\nA:boss:x 00\n", Some(3)),
    ("A:peer:x 0\n", Some(1)),
    ("A:peer:x 000\n", Some(1)),
    ("A:peer:x 0g\n", Some(1)),
    ("A:peer:x aAfF\n", None),
    ("A:peer:x\n", Some(1)),
    ("A:peer:x 00 11\n", Some(1)),
    ("A:peer:x\t00\n", Some(1)),
    ("A:peer 00\n", Some(1)),
    ("A 00\n", Some(1)),
    ("A/:peer:x 00\n", Some(1)),
    (":peer:x 00\n", Some(1)),
    ("Org1:boss:x 00\n", Some(1)),
    ("Org1:Peer:x 00\n", Some(1)),
    ("Org1:peer: 00\n", Some(1)),
    ("Org1:peer:% 00\n", None),
    ("A:peer:%41 00\n", None),
    ("A:peer:%41 00\nA:peer:A 00\n", Some(2)),
    ("A:peer:%4 00\n", Some(1)),
    ("A:peer:a:b 00\nA:peer:a 00\nA:peer:a: 00\n", None),
    ("\n#\nA:peer:x 0\nA:boss:x 00\n", Some(3)),
];

#[test]
fn texts(rt: HostRuntime) -> Result<(), KeyBookFault> {
    for &(text, fault) in books() {
        assert!(rt; faulty_line(rt.alloc(), text)? == fault, "{text}");
    }
    Ok(())
}

// The book gives this label of A's peer `a:bA` the key 1, and the empty label the key 2.
const LABELS: &str = "A:peer:a:b%41 01\nA:peer:% 02\n";

fn has_key(alloc: Global, label: &'static [u8], key: u8) -> Result<bool, KeyBookFault> {
    let book = KeyBook::read(alloc, LABELS)?;
    match identity((b"A", Role::Peer, label)) {
        Some(signer) => Ok(book.sign(&signer, b"message") == Some(hmac_sha256(&[key], b"message"))),
        None => Ok(false),
    }
}

#[test]
fn labels_of_texts(rt: HostRuntime) -> Result<(), KeyBookFault> {
    assert!(rt; has_key(rt.alloc(), b"a:bA", 1)?);
    assert!(rt; has_key(rt.alloc(), b"", 2)?);
    Ok(())
}

fn is_without_label(identity: &OwnedIdentity) -> bool {
    let lent = identity.lend();
    lent.org.as_slice() == b"A".as_slice() && lent.role == Role::Peer && lent.label.is_empty()
}

// Whether the text names A's peer without a label, or nothing where it names no identity.
fn names_one_without_label(alloc: Global, text: &[u8]) -> Result<Option<bool>, AllocError> {
    match read_identity(alloc, text)? {
        Some(identity) => Ok(Some(is_without_label(&identity))),
        None => Ok(None),
    }
}

#[test]
fn identities_of_texts(rt: HostRuntime) -> Result<(), AllocError> {
    assert!(rt; names_one_without_label(rt.alloc(), b"A:peer:%")? == Some(true));
    assert!(rt; names_one_without_label(rt.alloc(), b"A:peer:x 00")? == None);
    Ok(())
}

// The line of the first fault of a text that has this part so many times between two others.
fn faulty_line_of(
    alloc: Global,
    front: &str,
    part: &str,
    count: usize,
    back: &str,
) -> Result<Option<u64>, KeyBookFault> {
    let mut text = String::from_str(alloc, front)?;
    for _ in 0..count {
        text.push_str(part)?;
    }
    text.push_str(back)?;
    faulty_line(alloc, text.as_str())
}

fn lengths_of_parts() -> &'static [(&'static str, &'static str, usize, &'static str, Option<u64>)] {
    &LENGTHS
}

static LENGTHS: [(&str, &str, usize, &str, Option<u64>); 11] = [
    ("A:peer:x ", "a", 2, "", None),
    ("A:peer:x ", "a", 64, "", None),
    ("A:peer:x ", "a", 128, "", None),
    ("A:peer:x ", "a", 129, "", Some(1)),
    ("A:peer:x ", "a", 130, "", Some(1)),
    ("A:peer:", "%7f", 1, " 00", None),
    ("A:peer:", "%7f", 255, " 00", None),
    ("A:peer:", "%7f", 256, " 00", Some(1)),
    ("", "o", 1, ":peer:x 00", None),
    ("", "o", 64, ":peer:x 00", None),
    ("", "o", 65, ":peer:x 00", Some(1)),
];

#[test]
fn lengths(rt: HostRuntime) -> Result<(), KeyBookFault> {
    for (row, &(front, part, count, back, fault)) in lengths_of_parts().iter().enumerate() {
        let line = faulty_line_of(rt.alloc(), front, part, count, back)?;
        assert!(rt; line == fault, "row {row}");
    }
    Ok(())
}

// The second line has a fault.
const FAULTY: &str = "Org1:peer:p0 4a656665\nOrg2:client:c0 0\n";

// The book is read again where memory was wanting.
fn outcome_of_book(alloc: Global, text: &str, expected: Option<u64>) -> Outcome {
    match faulty_line(alloc, text) {
        Ok(line) if line == expected => Outcome::Done,
        Ok(_) | Err(KeyBookFault::Line(_)) => Outcome::Wrong,
        Err(KeyBookFault::Memory) if faulty_line(alloc, text) == Ok(expected) => Outcome::MadeGood,
        Err(KeyBookFault::Memory) => Outcome::Wrong,
    }
}

/// What comes of reading a good book.
pub fn outcome_of_good(alloc: Global) -> Result<Outcome, Failed> {
    begins(alloc)?;
    let text = "Org1:peer:p0 4a656665\nOrg2:client:c0 00\n";
    Ok(outcome_of_book(alloc, text, None))
}

/// What comes of reading one with a fault.
pub fn outcome_of_faulty(alloc: Global) -> Result<Outcome, Failed> {
    begins(alloc)?;
    Ok(outcome_of_book(alloc, FAULTY, Some(2)))
}

// To be tried with memory that is refused at any one allocation, by `bench/refused_memory.py`: then want of memory is
// answered, and no line.
#[test]
fn refused_memory_is_no_fault_of_a_line(rt: HostRuntime) -> Result<(), Failed> {
    assert!(rt; outcome_of_good(rt.alloc())? == Outcome::Done);
    assert!(rt; outcome_of_faulty(rt.alloc())? == Outcome::Done);
    Ok(())
}
