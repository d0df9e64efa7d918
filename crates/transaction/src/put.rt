ghost use Rattle.std.specs.Prelude.{◌≡◌, ◌^◌, ◌<◌, ◌≤◌, ℕ, List, ◌++◌, ◌∷◌, [], length, OnOk, IsTrue, IfSome};
ghost use Rattle.std.specs.List.{flat_map, AllByRecursion};
ghost use Rattle.byteorder.specs.Endian.{big_bytes};
ghost use Rattle.values.specs.Name.{is_name};
ghost use Rattle.values.specs.Key.{is_key, is_bound};
ghost use Rattle.transaction.specs.Grammar.{counted, listed, optional, AreItems};
ghost use Rattle.transaction.specs.Putting.{Puts};

use crate::fault::EncodeFault;
use byteorder::{BigEndian, ByteOrder};
use std::alloc::AllocError;

pub(crate) fn put_u8(out: &mut Vec<u8>, n: u8) -> Result<(), AllocError>
    ensures { OnOk result (out.new.items ≡ out.old.items ++ n ∷ []) }
{
    out.push(n)?;
    Ok(())
}

fn put_u16(out: &mut Vec<u8>, n: u16) -> Result<(), AllocError>
    ensures { OnOk result (out.new.items ≡ out.old.items ++ big_bytes 2 n) }
{
    let mut bytes = [0; 2];
    BigEndian::write_u16(&mut bytes, n);
    out.extend_from_slice(&bytes)
}

/// Writes the number at the end, the highest byte first.
pub fn put_u32(out: &mut Vec<u8>, n: u32) -> Result<(), AllocError>
    ensures { OnOk result (out.new.items ≡ out.old.items ++ big_bytes 4 n) }
{
    let mut bytes = [0; 4];
    BigEndian::write_u32(&mut bytes, n);
    out.extend_from_slice(&bytes)
}

/// Writes the number at the end, the highest byte first.
pub fn put_u64(out: &mut Vec<u8>, n: u64) -> Result<(), AllocError>
    ensures { OnOk result (out.new.items ≡ out.old.items ++ big_bytes 8 n) }
{
    let mut bytes = [0; 8];
    BigEndian::write_u64(&mut bytes, n);
    out.extend_from_slice(&bytes)
}

/// Writes the lowest four bytes of a length at the end, the highest first.
pub fn put_length32(out: &mut Vec<u8>, len: usize) -> Result<(), AllocError>
    ensures { OnOk result (out.new.items ≡ out.old.items ++ big_bytes 4 len) }
{
    let mut bytes = [0; 8];
    BigEndian::write_u64(&mut bytes, len as u64);
    out.extend_from_slice(&bytes[4..])
}

/// Writes the lowest byte of their length, and these bytes, at the end.
pub fn put_counted8(out: &mut Vec<u8>, bytes: &[u8]) -> Result<(), AllocError>
    ensures { OnOk result (out.new.items ≡ out.old.items ++ counted 1 bytes.now) }
{
    let mut length = [0; 8];
    BigEndian::write_u64(&mut length, bytes.len() as u64);
    out.extend_from_slice(&length[7..])?;
    out.extend_from_slice(bytes)
}

/// Writes the lowest two bytes of their length, the highest first, and these bytes, at the end.
pub fn put_counted16(out: &mut Vec<u8>, bytes: &[u8]) -> Result<(), AllocError>
    ensures { OnOk result (out.new.items ≡ out.old.items ++ counted 2 bytes.now) }
{
    let mut length = [0; 8];
    BigEndian::write_u64(&mut length, bytes.len() as u64);
    out.extend_from_slice(&length[6..])?;
    out.extend_from_slice(bytes)
}

/// Writes the lowest four bytes of their length, the highest first, and these bytes, at the end.
pub fn put_counted32(out: &mut Vec<u8>, bytes: &[u8]) -> Result<(), AllocError>
    ensures { OnOk result (out.new.items ≡ out.old.items ++ counted 4 bytes.now) }
{
    put_length32(out, bytes.len())?;
    out.extend_from_slice(bytes)
}

pub(crate) fn put_len8(out: &mut Vec<u8>, len: usize) -> Result<(), EncodeFault>
    ensures { Puts result out.old.items out.new.items (big_bytes 1 len) (len < 2 ^ 8) }
{
    let Ok(len) = u8::try_from(len) else {
        return Err(EncodeFault::TooLarge);
    };
    put_u8(out, len)?;
    Ok(())
}

fn put_len16(out: &mut Vec<u8>, len: usize) -> Result<(), EncodeFault>
    ensures { Puts result out.old.items out.new.items (big_bytes 2 len) (len < 2 ^ 16) }
{
    let Ok(len) = u16::try_from(len) else {
        return Err(EncodeFault::TooLarge);
    };
    put_u16(out, len)?;
    Ok(())
}

fn put_len32(out: &mut Vec<u8>, len: usize) -> Result<(), EncodeFault>
    ensures { Puts result out.old.items out.new.items (big_bytes 4 len) (len < 2 ^ 32) }
{
    let Ok(len) = u32::try_from(len) else {
        return Err(EncodeFault::TooLarge);
    };
    put_u32(out, len)?;
    Ok(())
}

pub(crate) fn put_bytes8(out: &mut Vec<u8>, bytes: &[u8]) -> Result<(), EncodeFault>
    ensures { Puts result out.old.items out.new.items (counted 1 bytes.now) (length bytes.now < 2 ^ 8) }
{
    put_len8(out, bytes.len())?;
    out.extend_from_slice(bytes)?;
    Ok(())
}

pub(crate) fn put_bytes16(out: &mut Vec<u8>, bytes: &[u8]) -> Result<(), EncodeFault>
    ensures { Puts result out.old.items out.new.items (counted 2 bytes.now) (length bytes.now < 2 ^ 16) }
{
    put_len16(out, bytes.len())?;
    out.extend_from_slice(bytes)?;
    Ok(())
}

pub(crate) fn put_bytes32(out: &mut Vec<u8>, bytes: &[u8]) -> Result<(), EncodeFault>
    ensures { Puts result out.old.items out.new.items (counted 4 bytes.now) (length bytes.now < 2 ^ 32) }
{
    put_len32(out, bytes.len())?;
    out.extend_from_slice(bytes)?;
    Ok(())
}

/// A field that lists are made of.
pub(crate) trait Spelled {
    ghost spelling: { Self → List ℕ };

    ghost is_within: { Self → Type 0 };

    fn put(&self, out: &mut Vec<u8>) -> Result<(), EncodeFault>
        ensures { Puts result out.old.items out.new.items (spelling self.now) (is_within self.now) };
}

pub(crate) fn put_fields<T: Spelled>(out: &mut Vec<u8>, items: &[T]) -> Result<(), EncodeFault>
    ensures { Puts result out.old.items out.new.items (flat_map T.spelling items.now) (AllByRecursion T.is_within items.now) }
{
    for item in items {
        item.put(out)?;
    }
    Ok(())
}

pub(crate) fn put_list<T: Spelled>(out: &mut Vec<u8>, items: &[T]) -> Result<(), EncodeFault>
    ensures { Puts result out.old.items out.new.items (listed 2 T.spelling items.now) (AreItems T.is_within items.now) }
{
    put_len16(out, items.len())?;
    put_fields(out, items)
}
