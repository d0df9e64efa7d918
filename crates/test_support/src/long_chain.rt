use std::alloc::{AllocError, Global};

fn put_write(alloc: Global, script: &mut String, number: u32) -> Result<(), AllocError> {
    let write = format!(in alloc; "write k{number} v\n")?;
    script.push_str(write.as_str())
}

/// A script for block 0: one transaction, with the nonce `first`, writes the keys `k0` to `k{last}`.
pub fn keys_script(alloc: Global, last: u32) -> Result<String, AllocError> {
    let mut script = String::from_str(
        alloc,
        "tx Org1:client:c0 first cc\nendorse Org1:peer:p0\nns cc\n",
    )?;
    for number in 0..=last {
        put_write(alloc, &mut script, number)?;
    }
    Ok(script)
}

fn put_tx(alloc: Global, script: &mut String, number: u32, next: u32) -> Result<(), AllocError> {
    let tx = format!(in alloc;
        "tx Org1:client:c0 n{number} cc\nns cc\nread k{number} 0 0\nwrite k{next} v\nendorse Org1:peer:p0\n"
    )?;
    script.push_str(tx.as_str())
}

/// A script for block 1, of `length` transactions. Transaction i has the nonce `n{i}`, reads `k{i}` as block 0 wrote
/// it, and writes the next key. So every second one, from the second on, is stale.
pub fn chain_script(alloc: Global, length: u32) -> Result<String, AllocError> {
    let mut script = String::new(alloc);
    for number in 0..length {
        put_tx(alloc, &mut script, number, number + 1)?;
    }
    Ok(script)
}

/// The flags of the block of `chain_script`: 0 and 11 in turn.
pub fn chain_flags(alloc: Global, length: u32) -> Result<Vec<u8>, AllocError> {
    let mut flags = Vec::new(alloc);
    for number in 0..length {
        flags.push(if number % 2 == 0 { 0 } else { 11 })?;
    }
    Ok(flags)
}
