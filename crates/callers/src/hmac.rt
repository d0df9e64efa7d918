use key_book::hmac_sha256;
use values::Hash;

/// HMAC-SHA-256 of a message, or none if the key has more than 64 bytes.
pub fn message_code(key: &[u8], message: &[u8]) -> Option<Hash> {
    if key.len() > 64 {
        return None;
    }
    Some(hmac_sha256(key, message))
}
